// The dispatcher's record, held by value: the empty one, the one to start with, the test of its range, and the tick's rules on it.
#![tactic(auto)]

mod ranges;
pub mod rules;

ghost use Rattle.std.specs.Prelude.{◌≡◌, ◌≤◌};
ghost use Rattle.model.specs.Arrays.{phase_at};
ghost use Rattle.model.specs.Ranges.{tasks_most};
ghost use Rattle.records.specs.Record.{empty_record};
ghost use Rattle.records.specs.Start.{ready_record};
ghost use Rattle.records.specs.Taken.{Taken};
ghost use Rattle.table.specs.TaskModel.{tasks_of};

use table::Table;

// The record. T, D and the number of phases of each task; c, q and the count of each phase, eight places for each task; then what a tick changes:
// the ticks since the last admitted release, whether a job is unfinished (1, else 0), its time left, its phase and piece; the running task and the
// ticks left of its piece. C lends its memory, so that every bit pattern there has to be a record: whether a job is unfinished is a number, and
// tasks, phases and pieces are numbered from 1, with 0 for none (docs/DECISIONS, 13).
// Stays a struct of arrays: C has it so, and document 01 names the form.
#[repr(C)]
#[derive(Clone, Copy)]
pub struct Dispatcher {
    pub tasks: u32,
    pub spacing: [u32; 32],
    pub deadline: [u32; 32],
    pub phases: [u32; 32],
    pub work: [u32; 256],
    pub cost: [u32; 256],
    pub counts: [u32; 256],
    pub since: [u32; 32],
    pub unfinished: [u32; 32],
    pub left: [u32; 32],
    pub phase: [u32; 32],
    pub piece: [u32; 32],
    pub running: u32,
    pub ticks: u64,
}

impl Dispatcher {
    // The empty record: it runs nothing and lets nothing in.
    pub const EMPTY: Dispatcher = Dispatcher {
        tasks: 0,
        spacing: [0; 32],
        deadline: [0; 32],
        phases: [0; 32],
        work: [0; 256],
        cost: [0; 256],
        counts: [0; 256],
        since: [0; 32],
        unfinished: [0; 32],
        left: [0; 32],
        phase: [0; 32],
        piece: [0; 32],
        running: 0,
        ticks: 0,
    };

    // The same as a call, with its promise.
    // Stays beside `Table::empty`: document 01 wants the empty record as a constant of its type, and each promises its own.
    pub fn empty() -> Dispatcher
        ensures { result ≡ empty_record }
    {
        Dispatcher::EMPTY
    }
}

// The record to start with: nothing is unfinished, and every task may release at once. (A layer's own call: the table was read, and the counts are
// those of its judge.)
pub fn ready(table: &Table, counts: &[u32; 256]) -> Dispatcher
    requires { table.now.tasks ≤ tasks_most }
    ensures { result ≡ ready_record (tasks_of table.now) (phase_at counts.now) }
{
    Dispatcher {
        tasks: table.tasks as u32,
        spacing: table.spacing,
        deadline: table.deadline,
        phases: table.phases,
        work: table.work,
        cost: table.cost,
        counts: *counts,
        since: table.spacing,
        ..Dispatcher::EMPTY
    }
}

// What a record is taken as: itself where every field is in its range, else the empty record. The test stands here and not in a call of its own, and
// only the empty record is written: as `if .. { given } else { .. }` each tick would copy the record once more and clear another.
pub fn taken(mut given: Dispatcher) -> Dispatcher
    ensures { Taken given result }
{
    let held = given.held_in();
    let changing = given.changing_in();
    let runs = given.running_in();
    let in_range = held & changing & runs;
    if !in_range {
        given = Dispatcher::empty();
    }
    given
}
