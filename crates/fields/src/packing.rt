ghost use Rattle.std.specs.Prelude.{◌≡◌, ◌≤◌, length, slice_index};
ghost use Rattle.fields.specs.Packing.{packed_length, code_at, codes_from, put_code, first_foreign, CodesWritten, RunsReadBack};

use super::rings::Ring;

// A buffer is too short or too long for what was asked; nothing was written.
#[derive(Clone, Copy, PartialEq, Eq, Debug)]
pub struct Misfit;

// A ring of at most so many codes has two codes a byte, any other one.
const TWO_A_BYTE: u16 = 16;

// How many bytes a run of n codes takes, in a ring of q codes.
pub fn packed_len(q: u16, n: usize) -> usize
    ensures value { result ≡ packed_length q n }
    ensures bound { result ≤ n }
{
    if q > TWO_A_BYTE { n } else { n / 2 + n % 2 }
}

// The byte at place k; 0 past the end.
fn byte_or_zero(bytes: &[u8], k: usize) -> u8
    ensures { result ≡ slice_index bytes.now k }
{
    bytes.get(k).copied().unwrap_or(0)
}

// The code at place k of a packed run, from 0; 0 past the run's end.
pub fn read_code<R: Ring>(ring: &R, run: &[u8], k: usize) -> u8
    ensures { result ≡ code_at (R.Ring.ring ring.now).q run.now k }
{
    if ring.size() > TWO_A_BYTE {
        return byte_or_zero(run, k);
    }
    let byte = byte_or_zero(run, k / 2);
    if k % 2 == 0 { byte % 16 } else { byte / 16 }
}

// Reads the codes of a packed run from place `from` on, as many as `codes` has places; past the run's end they are 0.
pub fn read_codes<R: Ring>(ring: &R, run: &[u8], from: usize, codes: &mut [u8])
    ensures { codes.new ≡ codes_from (R.Ring.ring ring.now).q run.now from (length codes.old) }
{
    let per_byte = if ring.size() > TWO_A_BYTE { 1 } else { 2 };
    let start = run.len().min(from / per_byte);
    let rest = &run[start..];
    for (i, code) in codes.iter_mut().enumerate() {
        *code = read_code(ring, rest, from % per_byte + i);
    }
}

// Writes the code at place k of a packed run, modulo 16 where two codes take a byte; past the run's end nothing changes.
#[tactic(auto, using(crate::proofs::Runs::wide_byte, crate::proofs::Runs::narrow_byte, crate::proofs::Runs::put_past, crate::proofs::Runs::wide_put, crate::proofs::Runs::narrow_put, crate::proofs::Runs::with_low, crate::proofs::Runs::with_high))]
pub fn write_code<R: Ring>(ring: &R, run: &mut [u8], k: usize, code: u8)
    ensures { run.new ≡ put_code (R.Ring.ring ring.now).q run.old k code }
{
    let wide = ring.size() > TWO_A_BYTE;
    let at = if wide { k } else { k / 2 };
    if at >= run.len() {
        return;
    }
    if wide {
        run[at] = code;
        return;
    }
    let byte = run[at];
    if k % 2 == 0 {
        run[at] = byte / 16 * 16 + code % 16;
    } else {
        run[at] = byte % 16 + 16 * (code % 16);
    }
}

// Writes the codes as a packed run that fills `run`; a misfit, and `run` as it was, where it has another length.
pub fn write_codes<R: Ring>(ring: &R, codes: &[u8], run: &mut [u8]) -> Result<(), Misfit>
    ensures { CodesWritten (R.Ring.ring ring.now).q codes.now run.old result run.new }
{
    let q = ring.size();
    if run.len() != packed_len(q, codes.len()) {
        return Err(Misfit);
    }
    if q > TWO_A_BYTE {
        run.copy_from_slice(codes);
        return Ok(());
    }
    for (i, byte) in run.iter_mut().enumerate() {
        let high = byte_or_zero(codes, 2 * i + 1);
        *byte = codes[2 * i] % 16 + 16 * (high % 16);
    }
    Ok(())
}

// The place, counted from 1, of the first of a packed run's first n codes that is no code of the ring.
// A `for`: of `find` over the places it did not prove that those passed are codes.
pub fn first_foreign<R: Ring>(ring: &R, run: &[u8], n: usize) -> Option<usize>
    ensures { result ≡ first_foreign (R.Ring.ring ring.now).q (code_at (R.Ring.ring ring.now).q run.now) n }
{
    let q = ring.size();
    if q == 16 || q == 256 {
        return None;
    }
    for k in 0..n {
        if read_code(ring, run, k) as u16 >= q {
            return Some(k + 1);
        }
    }
    None
}

// What `write_codes` writes, `read_codes` reads back.
pub fn runs_read_back<R: Ring>(ring: &R)
    ensures { RunsReadBack (R.Ring.ring ring.now).q }
{}
