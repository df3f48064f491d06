// The sums of each duration: the rows of a claim file, one for each month of duration.
#![tactic(auto)]

mod rows;
pub mod run;
mod wrapping;
