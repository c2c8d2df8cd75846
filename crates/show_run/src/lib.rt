// Runs the dispatcher over an input (the table's length, the table, then a number for each tick, 2 mask + flag) and prints it tick by tick. What is
// printed no contract here says; it is compared with stored output.
#![tactic(auto)]

mod jobs;

ghost use Rattle.std.specs.Prelude.{◌≡◌, ℕ, ◌<◌, ◌≤◌, IfOk, IfSome, length, slice_range};
ghost use Rattle.show_run.specs.Runs.{AfterTicks, Begins, StartsOn};

use dispatch::Answer;
use groups::{Number, NumberError};
use jobs::{Jobs, Tally};
use records::Dispatcher;
use start::How;
use std::io::{self, Write};
use table::{Reason, TurnedAway};

// The longest table that an input may announce: far more than a table that is read has.
const TABLE_MOST: u64 = 65_535;

// Room for the table's length and the longest table that it may announce: an input that does not fill it is whole.
pub const INPUT_ROOM: usize = 65_552;

// A mask of 32 bits and a flag.
const REQUEST_MOST: u64 = 8_589_934_591;

// The bytes of the longest number.
const NUMBER_MOST: usize = 8;

// A run of a dispatcher that was started: the place of the next tick in the input and its number, the dispatcher's record, and what became of the jobs.
// (Places and ticks never come near 2^64; nothing here proves it, so their sums are ones that may wrap.)
#[derive(Clone, Copy)]
pub struct Run {
    pub place: usize,
    pub tick: u64,
    pub dispatcher: Dispatcher,
    pub tally: Tally,
}

// The number at a place of the bytes, at most `most`, or why and where they are turned away.
// Stays with a place, as `groups::read` has it, to which it passes both; and beside table's `Reader::due`, whose promise is in the parser's words,
// where here only bounds are leant on.
fn number(bytes: &[u8], at: usize, most: u64) -> Result<Number, TurnedAway>
    ensures within { IfOk result (λ n. (at < n.next) × (n.next ≤ length bytes.now)) }
    ensures range { IfOk result (λ n. n.value ≤ most) }
{
    match groups::read(bytes, at) {
        Ok(number) if number.value <= most => Ok(number),
        Ok(_) => Err(TurnedAway {
            reason: Reason::OutOfRange,
            place: at,
        }),
        Err(NumberError::Malformed) => Err(TurnedAway {
            reason: Reason::Malformed,
            place: at,
        }),
        Err(NumberError::Ends) => Err(TurnedAway {
            reason: Reason::Ends,
            place: bytes.len(),
        }),
    }
}

// The table at the front of the input, and the place behind it.
fn table_of(input: &[u8]) -> Result<(&[u8], usize), TurnedAway>
    ensures within { IfOk result (λ r. r.1 ≤ length input.now) }
    ensures table { IfOk result (λ r. (from : ℕ) × (r.0.now ≡ slice_range input.now from r.1)) }
{
    let length = number(input, 0, TABLE_MOST)?;
    let end = length.next + length.value as usize;
    match input.get(length.next..end) {
        Some(table) => Ok((table, end)),
        None => Err(TurnedAway {
            reason: Reason::Ends,
            place: input.len(),
        }),
    }
}

// Starts the dispatcher on the table, or prints what the judge says of it. The ticks stand behind the table.
// Stays with a place: that of the first tick in the input, and none of the table.
fn started<W: Write>(out: &mut W, table: &[u8], place: usize) -> io::Result<Option<Run>>
    ensures { IfOk result (λ r. IfSome r (λ run. (run.place ≡ place) × StartsOn table.now run)) }
{
    let started = start::start(table);
    match started.how {
        How::Ready => Ok(Some(Run {
            place,
            tick: 0,
            dispatcher: started.dispatcher,
            tally: Tally::NONE,
        })),
        How::Refused(_) | How::TurnedAway(_) => {
            show_verdict::verdict(out, table)?;
            Ok(None)
        }
    }
}

// Reads the table at the front of the input and starts the dispatcher on it. There is no run where the input is turned away, or where the table is not
// accepted; what is said of it is then printed.
pub fn begin<W: Write>(out: &mut W, input: &[u8]) -> io::Result<Option<Run>>
    ensures { IfOk result (λ r. IfSome r (Begins input.now)) }
{
    match table_of(input) {
        Ok((table, place)) => started(out, table, place),
        Err(away) => {
            show::away(out, b"input turned away", away)?;
            Ok(None)
        }
    }
}

// A tick's line.
// Stays a function: a line of two values, where a Display would want a struct made of them for it alone.
fn print_tick<W: Write>(out: &mut W, tick: u64, answer: &Answer) -> io::Result<()> {
    write!(out, "{tick} {} {}", answer.admitted, answer.away)?;
    if answer.task == 0 {
        write!(out, " -")?;
    } else {
        write!(out, " {} {} {}", answer.task, answer.phase, answer.piece)?;
    }
    if answer.finished {
        write!(out, " finished")?;
    } else if answer.ended {
        write!(out, " ended")?;
    }
    writeln!(out)
}

// A task's line at the end.
// Stays a function: a line of three values, where a Display would want a struct made of them for it alone.
fn print_task<W: Write>(out: &mut W, i: usize, jobs: &Jobs, deadline: u32) -> io::Result<()> {
    writeln!(
        out,
        "task {}: {} let in, {} finished, worst response {} of {deadline}",
        show::task_number(i),
        jobs.admitted,
        jobs.finished,
        jobs.worst
    )
}

impl Run {
    // The jobs that a tick let in, and the one that it finished.
    fn count_jobs(&mut self, answer: &Answer)
        ensures { self.new ≡ record self.old { tally = self.new.tally } }
    {
        self.tally.admit(self.tick, answer.admitted);
        if answer.finished && 0 < answer.task {
            self.tally.complete(self.tick, answer.task as usize - 1);
        }
    }

    // One tick, printed.
    fn take_tick<W: Write>(&mut self, out: &mut W, request: u64) -> io::Result<()>
        requires { request ≤ REQUEST_MOST }
        ensures { AfterTicks self.old self.new }
    {
        let ticked = dispatch::tick(self.dispatcher, (request / 2) as u32, request % 2 == 1);
        print_tick(out, self.tick, &ticked.answer)?;
        self.count_jobs(&ticked.answer);
        self.dispatcher = ticked.next;
        self.tick = self.tick.wrapping_add(1);
        Ok(())
    }

    // The ticks that the bytes ask for, and how many of the bytes they used; none where the input is turned away at its next number. Where more input
    // follows (`whole` is false) a number that may go on in it is left.
    // Stays a flag: whether more input follows is a fact of the input, and no switch between steps.
    pub fn ticks<W: Write>(
        &mut self,
        out: &mut W,
        bytes: &[u8],
        whole: bool,
    ) -> io::Result<Option<usize>>
        ensures used { IfOk result (λ r. IfSome r (λ n. n ≤ length bytes.now)) }
        ensures ran { AfterTicks self.old self.new }
    {
        let first = self.place;
        let mut at = 0;
        // Stays a while: it counts no place, but goes from number to number.
        while at < bytes.len() && (whole || NUMBER_MOST <= bytes.len() - at) {
            match number(bytes, at, REQUEST_MOST) {
                Ok(request) => {
                    self.take_tick(out, request.value)?;
                    at = request.next;
                    self.place = first.wrapping_add(at);
                }
                Err(TurnedAway { reason, place }) => {
                    let place = first.wrapping_add(place);
                    show::away(out, b"input turned away", TurnedAway { reason, place })?;
                    return Ok(None);
                }
            }
        }
        Ok(Some(at))
    }

    // What is told of each task at the end.
    pub fn finish<W: Write>(&self, out: &mut W) -> io::Result<()> {
        let tasks = self.tally.tasks.iter().zip(self.dispatcher.deadline.iter());
        for (i, (jobs, deadline)) in tasks.take(self.dispatcher.tasks as usize).enumerate() {
            print_task(out, i, jobs, *deadline)?;
        }
        Ok(())
    }
}
