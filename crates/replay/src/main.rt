// Runs the dispatcher on standard input: the table's length as a house number, the table, then one house number a tick, 2 mask + flag. It prints a
// line for each tick and, at the end, what became of each task's jobs; or, of a table that is not accepted, what program `judge` prints.
#![tactic(auto)]

ghost use Rattle.std.specs.Prelude.{◌≡◌, ◌≤◌, ◌<◌, IfOk, length, take, slice_range, List, ℕ, ◌++◌};
ghost use Rattle.std.specs.Io.KnownBytes.{Consumes, IsAtEnd};

use show_run::Run;
use std::io::{self, Read, Write};
use std::ops::Range;

// The part `left` of the buffer is moved to its front, and the buffer is filled up from the input: how many bytes it then holds. They are those of the
// part and, behind them, the next of the input, and fewer than the buffer has room for only at its end. Behind an error the buffer has the length that
// it had.
fn refilled<R: Read>(input: &mut R, buffer: &mut [u8], left: Range<usize>) -> io::Result<usize>
    requires { (left.start ≤ left.end) × (left.end ≤ length buffer.old) }
    ensures prefix_len { IfOk result (λ n. n ≤ length buffer.new) }
    ensures room { length buffer.new ≡ length buffer.old }
    ensures bytes { IfOk result (λ n. (more : List ℕ)
        × (take n buffer.new ≡ slice_range buffer.old left.start left.end ++ more)
        × Consumes (R.remaining input.old) (R.remaining input.new) more) }
    ensures end { IfOk result (λ n. n < length buffer.new → IsAtEnd (R.remaining input.new)) }
{
    let kept = left.end - left.start;
    buffer.copy_within(left, 0);
    let more = show::read_full(input, &mut buffer[kept..])?;
    Ok(kept + more)
}

// All ticks of the input, of which the buffer holds the front. A proved loop has to end, and nothing says that the input does: it counts its turns.
// Stays with a length: how much of the buffer is held changes from turn to turn, and the whole of it is filled again.
fn all_ticks<R: Read, W: Write>(
    input: &mut R,
    out: &mut W,
    run: &mut Run,
    buffer: &mut [u8],
    held: usize,
) -> io::Result<()>
    requires { (run.old.place ≤ held) × (held ≤ length buffer.old) }
{
    let mut from = run.place;
    let mut to = held;
    for _ in 0..u64::MAX {
        let whole = to < buffer.len();
        let Some(used) = run.ticks(out, &buffer[from..to], whole)? else {
            return Ok(());
        };
        if whole {
            return Ok(());
        }
        to = refilled(input, buffer, from + used..to)?;
        from = 0;
    }
    Ok(())
}

// The front of the input starts the run; where it did, its ticks and its end follow.
fn main(rt: HostRuntime) -> io::Result<()> {
    let mut input = rt.stdin();
    let mut out = rt.stdout();
    let mut buffer = [0u8; show_run::INPUT_ROOM];
    let held = show::read_full(&mut input, &mut buffer)?;
    if let Some(mut run) = show_run::begin(&mut out, &buffer[..held])? {
        all_ticks(&mut input, &mut out, &mut run, &mut buffer, held)?;
        run.finish(&mut out)?;
    }
    out.flush()
}
