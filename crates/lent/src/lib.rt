// The thin calls over references: the demand at t of a lent slice of task structs, and a lent record moved forward by a tick.
// The tick takes the record out of the reference, passes it by value, and puts back what it is given.
#![tactic(auto)]

ghost use Rattle.std.specs.Prelude.{◌≡◌};
ghost use Rattle.dispatch.specs.Tick.{Ticks};
ghost use Rattle.lent.specs.Lent.{Sums};
ghost use Rattle.lent.specs.laws.Running.{told, term_of};

use dispatch::{Answer, Ticked};
use records::Dispatcher;

// A task as demand sees it: least spacing T, relative deadline D, and its budget under some choice of counts.
#[repr(C)]
#[derive(Clone, Copy)]
pub struct TaskLoad {
    pub spacing: u64,
    pub deadline: u64,
    pub budget: u64,
}

impl TaskLoad {
    // What this task demands at t, where that is below 2^64: its budget for the first job, and again for each further one.
    // A spacing of 0 gives no further one.
    fn demand(&self, t: u64) -> Option<u64>
        ensures { result ≡ told (term_of t self.now) }
    {
        if t < self.deadline {
            return Some(0);
        }
        let more = (t - self.deadline).checked_div(self.spacing).unwrap_or(0);
        let further = more.checked_mul(self.budget)?;
        further.checked_add(self.budget)
    }
}

// The demand at t of all tasks of the slice, where it is below 2^64.
pub fn demand_at(tasks: &[TaskLoad], t: u64) -> Option<u64>
    ensures { Sums tasks.now t result }
{
    let mut sum = 0u64;
    for task in tasks {
        sum = sum.checked_add(task.demand(t)?)?;
    }
    Some(sum)
}

// The same of an array by value, for whoever holds no slice.
// Stays beside `demand_at`: a public call with its own promise and edits, which docs/READING names.
pub fn demand_of(tasks: [TaskLoad; 32], t: u64) -> Option<u64>
    ensures { Sums tasks t result }
{
    demand_at(&tasks, t)
}

// Moves the caller's own record forward by a tick, and answers what the tick answers.
// Stays a flag: document 01's tick takes one, and C hands it in.
pub fn tick(dispatcher: &mut Dispatcher, mask: u32, flag: bool) -> Answer
    ensures { Ticks dispatcher.old mask flag dispatcher.new result }
{
    let moved = dispatch::tick(*dispatcher, mask, flag);
    *dispatcher = moved.next;
    moved.answer
}

// The same of a record by value, for whoever lends none.
// Stays beside `tick`: a public call with its own promise and edits, which docs/READING names.
// Stays a flag: document 01's tick takes one, and C hands it in.
pub fn ticked(dispatcher: Dispatcher, mask: u32, flag: bool) -> Ticked
    ensures { Ticks dispatcher mask flag result.next result.answer }
{
    let mut next = dispatcher;
    let answer = tick(&mut next, mask, flag);
    Ticked { next, answer }
}
