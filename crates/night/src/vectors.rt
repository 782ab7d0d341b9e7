use super::benches::Bench;
use fields::Field;
use std::alloc::Global;
use std::fs;
use std::str::from_utf8;

// The bytes that a text lists in hex, two digits each. A digit alone at the end is a byte too, and so is a plus with a digit.
// By hand, since the library `hex` reads neither.
fn parse_hex(heap: Global, text: &str) -> anyhow::Result<Vec<u8>> {
    text.as_bytes()
        .chunks(2)
        .map(|digits| -> anyhow::Result<u8> { Ok(u8::from_str_radix(from_utf8(digits)?, 16)?) })
        .try_collect(heap)
}

// Whether the start of a vinegar signs the digest of a pair with the signature of that pair.
fn signs_so<F: Field + Drop>(
    heap: Global,
    bench: &mut Bench<F>,
    pair: &str,
    vinegar: &str,
) -> anyhow::Result<bool> {
    let Some((digest, signature)) = pair.split_once(' ') else {
        return Ok(false);
    };
    let digest = parse_hex(heap, digest)?;
    let signature = parse_hex(heap, signature)?;
    let vinegar = parse_hex(heap, vinegar)?;
    if bench.prepare(vinegar.as_slice()).is_err() {
        return Ok(false);
    }
    let signed = bench.seal(digest.as_slice()).is_ok();
    Ok(signed && bench.signature() == signature.as_slice())
}

// Signs the digests of a file of pairs with the vinegars of another, line by line; prints how many signatures are as expected.
// Counts, and no index: the body may fail, so no chain.
pub(crate) fn compare<F: Field + Drop>(
    rt: &HostRuntime,
    field: F,
    name: &str,
) -> anyhow::Result<()> {
    let heap = rt.alloc();
    let key = fs::read(rt, format!(in heap; "{name}.sk")?.as_str())?;
    let pairs = fs::read_to_string(rt, format!(in heap; "{name}.pairs")?.as_str())?;
    let vinegars = fs::read_to_string(rt, format!(in heap; "{name}.vinegar")?.as_str())?;
    let mut bench = Bench::new(heap, field, key, 1, 1000)?;
    let mut expected: u32 = 0;
    let mut lines: u32 = 0;
    for (pair, vinegar) in pairs.lines().zip(vinegars.lines()) {
        lines = lines.saturating_add(1);
        if signs_so(heap, &mut bench, pair, vinegar)? {
            expected = expected.saturating_add(1);
        }
    }
    println!(rt; "{name}: {expected} of {lines} signatures as expected")?;
    Ok(())
}
