// What the test programs share: printing, dates written as digits, the bits of signed numbers, and lists of numbers.
#![tactic(auto)]

pub mod dates;
pub mod lists;
pub mod numbers;
pub mod print;
