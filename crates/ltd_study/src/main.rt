// The study of a claim file: reads the claim file on standard input and the rates in `rates.bin`, and prints the sums and T of
// each duration group, or where the file is refused.
//
// All working memory fits 65,536 bytes, of which the rate table takes 61,316. So the file is opened, with the 4,096 bytes of a
// path, before the table is made, and all bytes, read or to be printed, go through one buffer.
#![tactic(auto)]

mod input;
mod output;

use std::fs::{File, Files};

// The file of the rates, if it is there. Out of line, so that the bytes of its path are given back before the table is made.
#[inline(never)]
fn rates_file<R: Files>(rt: &R) -> Option<R::File> {
    File::open(rt, "rates.bin").ok()
}

// A write that fails ends the program, as there is nowhere to say so.
fn main(rt: HostRuntime) {
    let rates = rates_file(&rt);
    let _ = output::print_study(rates, &mut rt.stdin(), &mut rt.stdout());
}
