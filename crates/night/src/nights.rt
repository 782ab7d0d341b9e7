use super::benches::Bench;
use super::endings::Unsigned;
use fields::Mod31;
use keys::{Listed, Refusal};
use maps::verify;
use std::alloc::Global;
use std::io;

// A secret key modulo 31, of shape 1 1 1, and its public key.
const SECRET: [u8; 15] = [30, 1, 1, 1, 2, 3, 7, 4, 1, 1, 0, 0, 1, 0, 1];

const PUBLIC: [u8; 16] = [30, 1, 1, 1, 1, 0, 7, 0, 16, 1, 12, 0, 24, 4, 1, 9];

// With vinegar 1 the first digest is refused, the second signed.
const DULL: [u8; 2] = [8, 4];

const GOOD: [u8; 2] = [10, 4];

// More starts than 16 bits count.
const TURNS: u32 = 65540;

// A shelf modulo 31, made with so many places and such a life.
pub(crate) fn bench_31(heap: Global, places: u8, life: u32) -> anyhow::Result<Bench<Mod31>> {
    let key = SECRET.to_vec(heap)?;
    Bench::new(heap, Mod31, key, places, life)
}

// Prepares a start with one byte of vinegar, and prints the answer.
pub(crate) fn prepare(rt: &HostRuntime, bench: &mut Bench<Mod31>, vinegar: u8) -> io::Result<()> {
    match bench.prepare(&[vinegar]) {
        Ok(number) => println!(rt; "prepare {vinegar}: start {number}"),
        Err(refusal) => println!(rt; "prepare {vinegar}: {refusal}"),
    }
}

// Takes a start and signs with it, and prints the answers.
fn sign(rt: &HostRuntime, bench: &mut Bench<Mod31>, digest: &[u8]) -> io::Result<()> {
    let asked = Listed(digest);
    match bench.seal(digest) {
        Ok(number) => {
            let signature = Listed(bench.signature());
            println!(rt; "take: start {number}")?;
            println!(rt; "sign{asked}:{signature}")
        }
        Err(Unsigned::Thrown(number, refusal)) => {
            println!(rt; "take: start {number}")?;
            println!(rt; "sign{asked}: {refusal}")?;
            println!(rt; "start {number} still in hand: thrown away")
        }
        Err(Unsigned::NotTaken(refusal)) => println!(rt; "take: {refusal}"),
    }
}

// Dull vinegar, a dull digest, and then a signature, with its verdict.
pub(crate) fn night_and_block(rt: &HostRuntime) -> anyhow::Result<()> {
    println!(rt; "a night and a block")?;
    let mut bench = bench_31(rt.alloc(), 2, 5)?;
    prepare(rt, &mut bench, 0)?;
    prepare(rt, &mut bench, 1)?;
    sign(rt, &mut bench, &DULL)?;
    prepare(rt, &mut bench, 1)?;
    sign(rt, &mut bench, &GOOD)?;
    match verify(&Mod31, &PUBLIC, &GOOD, bench.signature()) {
        Ok(true) => println!(rt; "verify: yes")?,
        Ok(false) => println!(rt; "verify: no")?,
        Err(refusal) => println!(rt; "verify: {refusal}")?,
    }
    Ok(())
}

// Prepares and ends one start after the other, every other in a signature: the last number, and how many were the next one.
// A count of what is as expected, and no index.
fn number_starts(bench: &mut Bench<Mod31>) -> Result<(u32, u32), Refusal> {
    let mut last = 0;
    let mut expected: u32 = 0;
    for turn in 0..TURNS {
        last = bench.prepare(&[1])?;
        let ended = if turn % 2 == 0 {
            bench.seal(&GOOD)?
        } else {
            bench.waste()?
        };
        if last == turn + 1 && ended == last {
            expected = expected.saturating_add(1);
        }
    }
    Ok((last, expected))
}

// Starts are numbered past 65,535.
pub(crate) fn past_16_bits(rt: &HostRuntime) -> anyhow::Result<()> {
    println!(rt; "past 16 bits")?;
    let mut bench = bench_31(rt.alloc(), 1, 70000)?;
    match number_starts(&mut bench) {
        Ok((last, expected)) => {
            println!(rt; "last start {last}, {expected} of {TURNS} numbers as expected")?
        }
        Err(refusal) => println!(rt; "stopped: {refusal}")?,
    }
    Ok(())
}
