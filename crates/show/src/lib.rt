// What the programs print alike, and how they read.
#![tactic(auto)]

ghost use Rattle.std.specs.Prelude.{◌≡◌, ◌+◌, ◌%◌, ◌^◌, ◌<◌, ◌≤◌, IfOk, OnOk, length, take, [], ◌∷◌, ◌++◌, decimal};
ghost use Rattle.std.specs.Io.KnownBytes.{Appends, Consumes, IsAtEnd};
ghost use Rattle.table.specs.Reason.{reason_number};

use std::io::{self, Read, Write};
use table::TurnedAway;

// A number behind a space.
// Stays a function: a number has its Display, and this is what stands before it.
pub fn spaced_number<W: Write>(out: &mut W, n: u64) -> io::Result<()>
    ensures { OnOk result (Appends (W.contents out.old) (W.contents out.new) (32 ∷ decimal n)) }
{
    write!(out, " {n}")
}

// The number of the task at place i: tasks are numbered from 1.
pub fn task_number(i: usize) -> u64
    ensures { result ≡ (i + 1) % 2 ^ 64 }
{
    (i as u64).wrapping_add(1)
}

// The words, a reason and a place: the line of what was turned away.
// Stays beside `away`: a public call that docs/PROMISES names, and it takes any number for a reason.
pub fn turned_away<W: Write>(out: &mut W, words: &[u8], reason: u8, place: u64) -> io::Result<()>
    ensures { OnOk result (Appends (W.contents out.old) (W.contents out.new)
        (words.now ++ (32 ∷ decimal reason) ++ (32 ∷ decimal place) ++ (10 ∷ []))) }
{
    out.write_all(words)?;
    writeln!(out, " {reason} {place}")
}

// The same of what the reader turned away: the words, the number of the reason, and the place.
// Stays a function: what was turned away has its Display, and this is the line around it.
pub fn away<W: Write>(out: &mut W, words: &[u8], away: TurnedAway) -> io::Result<()>
    ensures { OnOk result (Appends (W.contents out.old) (W.contents out.new)
        (words.now ++ (32 ∷ decimal (reason_number away.reason)) ++ (32 ∷ decimal away.place) ++ (10 ∷ []))) }
{
    out.write_all(words)?;
    writeln!(out, " {away}")
}

// Reads until the buffer is full or the input ends: how many bytes it put at the front of the buffer. They are the next of the input, and fewer than
// the buffer has room for only at its end. The first read that fails ends it with its error: the buffer then has the length that it had, and what was
// read before is lost. (std's read_exact does not say how many bytes it read, and read_to_end wants a heap.)
pub fn read_full<R: Read>(input: &mut R, buffer: &mut [u8]) -> io::Result<usize>
    ensures prefix_len { IfOk result (λ n. n ≤ length buffer.new) }
    ensures room { length buffer.new ≡ length buffer.old }
    ensures bytes { IfOk result (λ n. Consumes (R.remaining input.old) (R.remaining input.new) (take n buffer.new)) }
    ensures end { IfOk result (λ n. n < length buffer.new → IsAtEnd (R.remaining input.new)) }
{
    let mut done = 0;
    // Stays a while: it counts no place, but the bytes that each read gave.
    while done < buffer.len() {
        let n = input.read(&mut buffer[done..])?;
        if n == 0 {
            return Ok(done);
        }
        done += n;
    }
    Ok(done)
}
