// Runs many stored inputs of program `replay`, and prints for each what it prints. The expected output is made by the separate program in papers/.
#![tactic(auto)]

use std::io::{self, Write};

// One input, whole.
fn replay<W: Write>(out: &mut W, input: &[u8]) -> io::Result<()> {
    if let Some(mut run) = show_run::begin(out, input)? {
        let first = run.place;
        run.ticks(out, &input[first..], true)?;
        run.finish(out)?;
    }
    Ok(())
}

fn main(rt: HostRuntime) -> io::Result<()> {
    let mut out = rt.stdout();
    let mut buffer = [0u8; 65_536];
    cases::each(&mut rt.stdin(), &mut out, &mut buffer, replay)?;
    out.flush()
}
