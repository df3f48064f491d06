// Prints what claim files answer, whole, in pieces and with corrections, and their rows by duration; the steps of loads; and the small company rule.
#![tactic(auto)]

mod companies;
mod files;
mod loads;
mod rows;

use companies::companies;
use files::files;
use loads::loads;
use rows::rows;
use std::io;

fn main(rt: HostRuntime) -> io::Result<()> {
    files(&rt)?;
    rows(&rt)?;
    loads(&rt)?;
    companies(&rt)
}
