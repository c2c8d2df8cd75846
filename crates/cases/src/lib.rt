// Stored cases on an input: for each its length in two bytes, the lower first, and then its bytes.
#![tactic(auto)]

ghost use Rattle.std.specs.Prelude.{◌≡◌, ◌≤◌, IfOk, IfSome, OnOk, length, take};
ghost use Rattle.cases.specs.Cases.{IfWhole, RunsOver, Taken, next_on};

use show::read_full;
use std::io::{self, Read, Write};

// What stands next on an input: a whole case of so many bytes, its end, or a case that is cut, where the input ended within it or the buffer has no
// room for one.
// Stays an enum of its own: what stands next is a case, the end or a cut one, and neither of the last two is an error of reading. (Of a case it has the
// length: its bytes are in the buffer, which `each` lends out and takes back.)
#[derive(Clone, Copy)]
enum Case {
    Whole(usize),
    End,
    Cut,
}

// Reads what stands next; a whole case is put at the front of the buffer. Behind an error the buffer has the length that it had.
fn next<R: Read>(input: &mut R, buffer: &mut [u8]) -> io::Result<Case>
    ensures prefix_len { IfOk result (λ c. IfWhole c (λ n. n ≤ length buffer.new)) }
    ensures bytes { IfOk result (λ c. IfWhole c (λ n.
        Taken (R.remaining input.old) (R.remaining input.new) (take n buffer.new))) }
    ensures case { IfOk result (λ c.
        IfSome (R.remaining input.old) (λ xs. c ≡ next_on (length buffer.old) xs)) }
    ensures room { length buffer.new ≡ length buffer.old }
{
    let mut two = [0u8; 2];
    let announced = read_full(input, &mut two)?;
    if announced == 0 {
        return Ok(Case::End);
    }
    if announced < 2 {
        return Ok(Case::Cut);
    }
    let whole = usize::from(u16::from_le_bytes(two));
    if buffer.len() < whole {
        return Ok(Case::Cut);
    }
    let got = read_full(input, &mut buffer[..whole])?;
    if got < whole {
        return Ok(Case::Cut);
    }
    Ok(Case::Whole(whole))
}

// Hands each case to `run`, in order; a buffer of 65,536 bytes has room for any. Behind the last a line tells where the next is cut, so that what is
// printed is not taken for the output of a shorter list. A proved loop has to end, and nothing says that the input does: it counts its turns. Behind
// an error the buffer has the length that it had. (What it requires of `run`, any function or closure that is safe for all bytes gives.)
pub fn each<R: Read, W: Write, F: FnMut(&mut W, &[u8]) -> io::Result<()>>(
    input: &mut R,
    out: &mut W,
    buffer: &mut [u8],
    mut run: F,
) -> io::Result<()>
    requires { F.IsAlwaysCallable run }
    ensures room { length buffer.new ≡ length buffer.old }
    ensures runs { OnOk result (RunsOver R.remaining F.FnMut W.contents (length buffer.old)
        (record { input = input.old; run = run; out = out.old }) out.new) }
{
    for turn in 0..u64::MAX {
        match next(input, buffer)? {
            Case::Whole(n) => run(out, &buffer[..n])?,
            Case::End => return Ok(()),
            Case::Cut => return writeln!(out, "the cases end within a case"),
        }
    }
    Ok(())
}
