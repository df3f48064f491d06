// Prints what the calendar, the month records and the rate tables answer, over all days and at the edges of their rules.
#![tactic(auto)]

mod days;
mod durations;
mod listings;
mod preparing;
mod tables;

use days::days;
use listings::listings;
use std::io;
use tables::tables;

fn main(rt: HostRuntime) -> io::Result<()> {
    days(&rt)?;
    listings(&rt)?;
    tables(&rt)
}
