#![tactic(auto)]

// Runs the calls of a shelf in a fixed order, and prints the answers.
mod benches;
mod endings;
mod nights;
mod refusals;
mod vectors;

use fields::{gf16, gf256};
use nights::{night_and_block, past_16_bits};
use refusals::{full_shelf, one_hand, strange_start, worn_out_shelf};
use vectors::compare;

fn run(rt: &HostRuntime) -> anyhow::Result<()> {
    night_and_block(rt)?;
    worn_out_shelf(rt)?;
    full_shelf(rt)?;
    one_hand(rt)?;
    strange_start(rt)?;
    past_16_bits(rt)?;
    compare(rt, gf16(), "q16odd")?;
    compare(rt, gf256(), "q256uneven")
}

fn main(rt: HostRuntime) -> anyhow::Result<()> {
    run(&rt)
}
