// Prints what studies answer, their factors and the reserves that rest on them: windows and their parts, the edges of the checks, weights,
// withdrawals, pools of offices, z, m and T, wanted counts, and the limit on reserves.
#![tactic(auto)]

mod claims;
mod edges;
mod factors;
mod figures;
mod joins;
mod numbers;
mod offices;
mod pools;
mod reserves;
mod studies;
mod weights;
mod windows;
mod withdrawals;

use edges::edges;
use factors::factors;
use joins::joins;
use pools::pools;
use reserves::reserves;
use std::io;
use studies::rate_table;
use weights::weights;
use windows::windows;
use withdrawals::withdrawals;

fn main(rt: HostRuntime) -> io::Result<()> {
    let table = rate_table();
    windows(&rt, &table)?;
    edges(&rt, &table)?;
    weights(&rt, &table)?;
    withdrawals(&rt, &table)?;
    pools(&rt)?;
    joins(&rt)?;
    factors(&rt)?;
    reserves(&rt)
}
