use super::benches::Bench;
use super::nights::{bench_31, prepare};
use fields::Mod31;
use std::io;

// Takes a start and throws it away, and prints the answer.
fn waste(rt: &HostRuntime, bench: &mut Bench<Mod31>) -> io::Result<()> {
    match bench.waste() {
        Ok(number) => println!(rt; "take: start {number}, thrown away"),
        Err(refusal) => println!(rt; "take: {refusal}"),
    }
}

// A shelf that has prepared all its starts, though it is empty.
pub(crate) fn worn_out_shelf(rt: &HostRuntime) -> anyhow::Result<()> {
    println!(rt; "life 1")?;
    let mut bench = bench_31(rt.alloc(), 1, 1)?;
    prepare(rt, &mut bench, 1)?;
    waste(rt, &mut bench)?;
    prepare(rt, &mut bench, 1)?;
    Ok(())
}

// A shelf whose only place is filled; the vinegar's codes are tested first.
pub(crate) fn full_shelf(rt: &HostRuntime) -> anyhow::Result<()> {
    println!(rt; "a full shelf")?;
    let mut bench = bench_31(rt.alloc(), 1, 5)?;
    prepare(rt, &mut bench, 1)?;
    prepare(rt, &mut bench, 31)?;
    prepare(rt, &mut bench, 1)?;
    Ok(())
}

// No start waiting, and then a start in hand while another waits.
pub(crate) fn one_hand(rt: &HostRuntime) -> anyhow::Result<()> {
    println!(rt; "one hand")?;
    let mut bench = bench_31(rt.alloc(), 2, 5)?;
    waste(rt, &mut bench)?;
    prepare(rt, &mut bench, 1)?;
    prepare(rt, &mut bench, 1)?;
    match bench.take_twice() {
        Ok((number, refusal)) => {
            println!(rt; "take: start {number}")?;
            println!(rt; "take again: {refusal}")?;
        }
        Err(refusal) => println!(rt; "take: {refusal}")?,
    }
    Ok(())
}

// A start of a second shelf is strange to the first.
pub(crate) fn strange_start(rt: &HostRuntime) -> anyhow::Result<()> {
    println!(rt; "two shelves")?;
    let mut first = bench_31(rt.alloc(), 1, 5)?;
    let mut second = bench_31(rt.alloc(), 1, 5)?;
    prepare(rt, &mut first, 1)?;
    prepare(rt, &mut second, 1)?;
    match second.give_away(&mut first) {
        Ok((number, Err(refusal))) => {
            println!(rt; "start {number} of the second, to the first: {refusal}")?;
            println!(rt; "start {number} back to the second: thrown away")?;
        }
        Ok((number, Ok(()))) => println!(rt; "start {number} of the second, to the first: taken")?,
        Err(refusal) => println!(rt; "take: {refusal}")?,
    }
    Ok(())
}
