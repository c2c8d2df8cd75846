// Prints the verdict on a table, as document 01 has it ("Worked tables").
#![tactic(auto)]

use std::io::{self, Write};

// The house numbers at the front of bytes, one behind the other.
#[derive(Drop)]
struct Numbers<'a>(&'a [u8]);

impl<'a> Iterator for Numbers<'a> {
    type Item = u64;

    fn next(&mut self) -> Option<u64> {
        let number = groups::read(self.0, 0).ok()?;
        self.0 = self.0.get(number.next..)?;
        Some(number.value)
    }
}

// So many numbers, each behind a space, and the end of the line.
// Stays a function: it takes so many numbers from an iterator, and prints each as it comes.
fn line_of_numbers<W: Write>(out: &mut W, numbers: &mut Numbers, count: usize) -> io::Result<()> {
    for number in numbers.take(count) {
        show::spaced_number(out, number)?;
    }
    writeln!(out)
}

// An accepted answer: its line, and for each task a line with its number, its counts and its longest piece. How many tasks there are, and how many
// phases each has, stands in the table only, which is read again for that alone, and so where it is accepted alone.
fn accepted<W: Write>(out: &mut W, bytes: &[u8], mut numbers: Numbers) -> io::Result<()> {
    write!(out, "accepted")?;
    line_of_numbers(out, &mut numbers, 2)?;
    if let Ok(table) = table::parse(bytes) {
        for (i, phases) in table.phases.iter().take(table.tasks).enumerate() {
            write!(out, "{}", show::task_number(i))?;
            line_of_numbers(out, &mut numbers, *phases as usize + 1)?;
        }
    }
    Ok(())
}

// A refused answer: its line.
fn refused<W: Write>(out: &mut W, mut numbers: Numbers) -> io::Result<()> {
    write!(out, "refused")?;
    line_of_numbers(out, &mut numbers, 5)
}

// Judges the table and prints `accepted` with a line for each task, `refused` or `turned away`.
pub fn verdict<W: Write>(out: &mut W, table: &[u8]) -> io::Result<()> {
    let mut answer = [0u8; answer::ANSWER_ROOM];
    match edf::judge(table, &mut answer) {
        Ok(_) => {
            let mut numbers = Numbers(&answer);
            match numbers.next() {
                Some(0) => accepted(out, table, numbers),
                _ => refused(out, numbers),
            }
        }
        Err(away) => show::away(out, b"turned away", away),
    }
}
