// A load as a claim file (document 02, No. 13): `ltd_load SEED SIZE FIRST LAST` writes block 0 with the window from FIRST to LAST and the
// blocks of the load's claims to standard output. A wrong word gets a line on standard error, and then nothing is written.
#![tactic(auto)]

mod call;
mod output;
mod words;

use calendar::Date;
use call::Call;
use claim_file::Block;

// A load, and the window of its file.
#[derive(Clone, Copy)]
struct Asked {
    seed: u32,
    size: u32,
    first: Date,
    last: Date,
}

// A block's claims, and the x reached.
#[derive(Clone, Copy)]
struct LoadedBlock {
    block: Block,
    x: u32,
}

fn main(rt: HostRuntime) {
    let words = Call {
        args: &rt,
        err: &rt.stderr(),
    };
    if let Some(asked) = words.asked() {
        output::write_load(&rt, asked);
    }
}
