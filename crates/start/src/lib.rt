// Starting the dispatcher on the bytes of a table.
#![tactic(auto)]

ghost use Rattle.table.specs.TaskModel.{tasks_of};
ghost use Rattle.table.specs.Valid.{Valid};
ghost use Rattle.walk.specs.Judge.{WalkJudges};
ghost use Rattle.start.specs.Start.{Begins, Starts};

use records::{Dispatcher, ready};
use table::{Table, TurnedAway};
use walk::judge::Judged;

// Why a table is refused: the witness, the demand there, the points examined, and the blocked task and phase.
// Stays with 0 and 0 for the demand, and beside walk's `Refused`: document 01's answer and C have them so.
#[derive(Clone, Copy, Debug, PartialEq, Eq)]
pub struct Refusal {
    pub witness: u64,
    pub demand: u64,
    pub points: u64,
    pub task: u32,
    pub phase: u32,
}

// The dispatcher is ready; or the table is refused; or it is turned away.
// Stays an enum of its own: document 01 has three outcomes, each beside a record (clauses of `start::start`), and none is the error of another.
#[derive(Clone, Copy, Debug, PartialEq, Eq)]
pub enum How {
    Ready,
    Refused(Refusal),
    TurnedAway(TurnedAway),
}

// How the dispatcher was started, and its record: the record to start with, or the empty one where the table is refused or turned away.
#[derive(Clone, Copy)]
pub struct Started {
    pub how: How,
    pub dispatcher: Dispatcher,
}

// What was judged of a table, as a start.
fn begun(table: &Table, judged: &Judged) -> Started
    requires { Valid table.now × WalkJudges (tasks_of table.now) judged.now }
    ensures { Begins (tasks_of table.now) result }
{
    match &judged.verdict {
        Ok(least) => Started {
            how: How::Ready,
            dispatcher: ready(table, &least.counts),
        },
        Err(refused) => Started {
            how: How::Refused(Refusal {
                witness: refused.witness,
                demand: refused.demand,
                points: judged.points,
                task: refused.task as u32,
                phase: refused.phase as u32,
            }),
            dispatcher: Dispatcher::empty(),
        },
    }
}

// Starts the dispatcher on the table in the bytes.
pub fn start(table: &[u8]) -> Started
    ensures { Starts table.now result }
{
    match table::read(table) {
        Ok(read) => {
            let judged = walk::judge::judge(&read.table, read.horizon);
            begun(&read.table, &judged)
        }
        Err(away) => Started {
            how: How::TurnedAway(away),
            dispatcher: Dispatcher::empty(),
        },
    }
}
