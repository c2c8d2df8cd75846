// Runs the worked tables of document 01 through the judge and prints, for each, its letter and the answer's bytes, or the reason and the place
// for turning it away. They are the byte strings of crate `worked`'s list. J, the lengths of a phase's pieces, is not a table: the list has it of
// the definitions alone, and it does not stand here.
#![tactic(auto)]

use std::io::{self, Write};

// Bytes as numbers, each behind a space, and the end of the line.
// Stays a function: bytes have their Display, and this is the line of them.
fn line_of_bytes<W: Write>(out: &mut W, bytes: &[u8]) -> io::Result<()> {
    for byte in bytes {
        show::spaced_number(out, u64::from(*byte))?;
    }
    writeln!(out)
}

// A table's letter and its answer or what turned it away, on a line.
fn run<W: Write>(out: &mut W, letter: &[u8], table: &[u8]) -> io::Result<()> {
    out.write_all(letter)?;
    let mut answer = [0u8; answer::ANSWER_ROOM];
    match edf::judge(table, &mut answer) {
        Ok(length) => line_of_bytes(out, &answer[..length]),
        Err(away) => show::away(out, b" turned away", away),
    }
}

// The tables by their letters.
fn main(rt: HostRuntime) -> io::Result<()> {
    let mut writer = rt.stdout();
    let out = &mut writer;
    run(out, b"A", b"\x02\x0A\x08\x01\x02\x01\x14\x12\x01\x09\x01")?;
    run(out, b"B", b"\x02\x0A\x05\x01\x02\x01\x14\x12\x01\x09\x01")?;
    run(out, b"C", b"\x02\x0A\x05\x01\x02\x01\x14\x14\x01\x04\x02")?;
    run(out, b"D", b"\x02\x0A\x05\x01\x02\x01\x14\x14\x01\x04\x01")?;
    run(out, b"E", b"\x02\x0A\x03\x01\x02\x01\x14\x14\x01\x04\x00")?;
    run(out, b"F", b"\x01\x05\x05\x01\x05\x00")?;
    run(out, b"G", b"\x01\x05\x05\x01\x05\x01")?;
    run(out, b"H", b"\x02\x0A\x0A\x01\x04\x01\x0A\x0A\x01\x04\x01")?;
    run(out, b"I", b"\x02\x04\x04\x01\x03\x00\x06\x06\x01\x02\x00")?;
    run(out, b"K", b"\x80\x00")?;
    run(out, b"L", b"")?;
    out.flush()
}
