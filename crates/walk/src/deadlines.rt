// The tasks' next deadlines: how they move on, and how the next test point is found among them. The other modules only hand them on: whoever keeps
// them in another form changes this module.
ghost use Rattle.std.specs.Prelude.{◌≡◌, ◌^◌, ◌≤◌, ◌<◌, length};
ghost use Rattle.model.specs.Ranges.{horizon_most, tasks_most};
ghost use Rattle.walk.specs.Deadlines.{BeforePass, Earliest, MovesOn, PointPassed};

use crate::masks::mark;
use table::Table;

// Each task waits for its first deadline.
pub fn first_deadlines(table: &Table) -> [u64; 32]
    ensures { result ≡ table.now.deadline }
{
    table.deadline.map(u64::from)
}

// The first test point: the least of the next deadlines.
pub fn front(next: &[u64]) -> u64
    requires { 0 < length next.now }
    ensures { Earliest (length next.now) next.now result }
{
    next.iter().copied().min().unwrap()
}

// Who was due at a test point, and the next test point: the least of the next deadlines after it.
#[derive(Clone, Copy)]
pub struct Moved {
    pub due: u32,
    pub soonest: u64,
}

// Task i moves on by its spacing where it is due at t, and is counted in with the tasks before it.
fn move_on(i: usize, t: u64, spacing: u32, moved: Moved, next: &mut [u64; 32]) -> Moved
    requires { (i < tasks_most) × (t ≤ horizon_most) × (moved.due < 2 ^ i) }
    ensures { MovesOn i t spacing next.old next.new moved result }
{
    let v = next[i];
    if v == t {
        let later = t + u64::from(spacing);
        next[i] = later;
        return Moved {
            due: mark(moved.due, i),
            soonest: moved.soonest.min(later),
        };
    }
    Moved {
        due: moved.due,
        soonest: moved.soonest.min(v),
    }
}

// The test point t is passed: every task whose next deadline it is moves on. The least starts from a number above every next deadline.
pub fn pass(table: &Table, t: u64, next: &mut [u64; 32]) -> Moved
    requires { BeforePass table.now.tasks t table.now.spacing next.old }
    ensures { PointPassed table.now.tasks t table.now.spacing next.old next.new result }
{
    let mut moved = Moved {
        due: 0,
        soonest: 2 * Table::HORIZON_MOST,
    };
    for i in 0..table.tasks {
        moved = move_on(i, t, table.spacing[i], moved, next);
    }
    moved
}
