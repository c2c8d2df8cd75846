// Runs many stored tables through the judge, and prints for each what program `judge` prints. The expected output is made by the separate
// program in papers/.
#![tactic(auto)]

use std::io::{self, Write};

fn main(rt: HostRuntime) -> io::Result<()> {
    let mut out = rt.stdout();
    let mut buffer = [0u8; 65_536];
    cases::each(
        &mut rt.stdin(),
        &mut out,
        &mut buffer,
        show_verdict::verdict,
    )?;
    out.flush()
}
