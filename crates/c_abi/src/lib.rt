// The calls for C and Rust that include/ltd_study.h declares.
// Kept: a call with a rate table has a twin for a prepared one: both are exported names, which stay.
#![tactic(auto)]

mod answers;
mod block;
mod companies;
mod corrected;
mod durations;
mod factors;
mod files;
mod listing;
mod loads;
mod study_calls;
mod version;

// What a call makes of a claim and a study. Kept: theorems of specs/ are of either change, for which a closure has no name.
#[derive(Clone, Copy)]
pub enum Change {
    Add,
    Withdraw,
}
