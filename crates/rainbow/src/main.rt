#![tactic(auto)]

// Reads a script of calls, one a line, and prints the answer to each.
mod builtin;
mod faults;
mod publishing;
mod scripts;

use scripts::Session;

fn run(rt: &HostRuntime) -> anyhow::Result<()> {
    let mut session = Session::new(rt.alloc());
    for (index, line) in rt.lines(rt.alloc()).enumerate() {
        let line = line?;
        session.answer(rt, index.saturating_add(1), line.as_str())?;
    }
    Ok(())
}

fn main(rt: HostRuntime) -> anyhow::Result<()> {
    run(&rt)
}
