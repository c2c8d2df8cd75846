// The four steps of a tick, each on the record by value. They are the crate's own, until they become calls of their own: each asks for a record in
// range, which the tick tests once. (Stays a `requires` of each: the record is C's memory, so its type can promise no range.)
ghost use Rattle.std.specs.Prelude.{◌≡◌, true};
ghost use Rattle.records.specs.Ranges.{in_range};
ghost use Rattle.dispatch.specs.Steps.{Admits, Elapses, Picks, WorksOn};
ghost use Rattle.dispatch.specs.laws.Working.{told_of};

use arrays::numbers::{choose, from_one};
use records::Dispatcher;
use records::rules::Due;

// What step 1 gives: the record after it, and the mask of the bits let in.
#[derive(Clone, Copy)]
pub struct Admitted {
    pub next: Dispatcher,
    pub let_in: u32,
}

// The task that ran (from 1; 0 for none), its phase and piece; whether the piece ended, whether the job finished.
// Stays: these are the answer's fields as C has them, three zeros for none.
#[derive(Clone, Copy)]
pub struct Ran {
    pub task: u32,
    pub phase: u32,
    pub piece: u32,
    pub ended: bool,
    pub finished: bool,
}

// What step 3 gives: the record after it, and what ran.
#[derive(Clone, Copy)]
pub struct Worked {
    pub next: Dispatcher,
    pub ran: Ran,
}

// Step 1. Whom to let in is found in one pass over all tasks, without a branch; then their jobs begin.
pub fn admit(mut held: Dispatcher, asked: u32) -> Admitted
    requires { in_range held ≡ true }
    ensures { Admits held asked result.next result.let_in }
{
    let let_in = held.let_in(asked);
    for i in 0..32 {
        if (let_in >> i) % 2 == 1 {
            held.since[i] = 0;
            held.unfinished[i] = 1;
            held.left[i] = held.deadline[i];
            held.phase[i] = 1;
            held.piece[i] = 1;
        }
    }
    Admitted { next: held, let_in }
}

// Step 2. A piece that runs is not set aside.
pub fn pick(mut held: Dispatcher) -> Dispatcher
    requires { in_range held ≡ true }
    ensures { Picks held result }
{
    if held.running == 0 {
        let task = held.urgent();
        if task != 0 {
            let ticks = held.due_ticks(task);
            held.running = task;
            held.ticks = ticks;
        }
    }
    held
}

// What is answered of the piece that ran.
// Stays a flag: it is a field of the answer, and no switch between steps.
fn told(due: Due, ended: bool) -> Ran
    ensures { result ≡ told_of due ended }
{
    let none = due.task == 0;
    let goes_on = (due.piece < due.pieces) | (due.phase < due.phases);
    Ran {
        task: due.task,
        phase: choose(none, 0, due.phase),
        piece: choose(none, 0, due.piece),
        ended,
        finished: ended & !goes_on,
    }
}

// Step 3. The piece goes on, or it ends: the next piece is due, or the first of the next phase, or the job is finished.
// Stays a flag: document 01's tick takes one, and C hands it in.
pub fn work(mut held: Dispatcher, flag: bool) -> Worked
    requires { in_range held ≡ true }
    ensures { WorksOn held flag result.next result.ran }
{
    let task = held.running;
    let due = held.due_piece(task);
    let ended = (task != 0) & (flag | (held.ticks <= 1));
    let ran = told(due, ended);
    let i = from_one(task);
    if ended {
        prove!(i < 32);
        held.running = 0;
        held.ticks = 0;
        if due.piece < due.pieces {
            held.piece[i] = due.piece + 1;
        } else if due.phase < due.phases {
            held.phase[i] = due.phase + 1;
            held.piece[i] = 1;
        } else {
            held.unfinished[i] = 0;
            held.left[i] = 0;
            held.phase[i] = 0;
            held.piece[i] = 0;
        }
    } else if task != 0 {
        held.ticks = held.ticks - 1;
    }
    Worked { next: held, ran }
}

// Step 4. Spacing counts rise by one and times left fall by one, within their stops.
pub fn elapse(mut held: Dispatcher) -> Dispatcher
    requires { in_range held ≡ true }
    ensures { Elapses held result }
{
    for i in 0..32 {
        held.since[i] = (held.since[i] + 1).min(held.spacing[i]);
        held.left[i] = held.left[i].saturating_sub(1);
    }
    held
}
