// What no layer owns: the units that several layers share, the papers' limits, and the numbers of the refusals.
#![tactic(auto)]

pub mod limits;
pub mod refusal;

// A day number: days since 1950-01-01. A unit of its own.
// Kept: the calendar's last day is no ghost field's bound: claim months end after it, and a window is checked with any days.
#[derive(Clone, Copy, PartialEq, Eq, PartialOrd, Ord)]
pub struct Day(pub u32);

// A duration in months. A unit of its own.
#[derive(Clone, Copy)]
pub struct Duration(pub u32);
