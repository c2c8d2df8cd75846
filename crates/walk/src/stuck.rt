// Whether the walk stops at a test point: the demand is above it, or a phase that blocks there has no room in the margin.
ghost use Rattle.std.specs.Prelude.{false, ◌≡◌, ◌≤◌, ◌<◌, get_or};
ghost use Rattle.finite.specs.Finite.{Below};
ghost use Rattle.model.specs.Ranges.{phases_most, tasks_most};
ghost use Rattle.model.specs.Phase.{phases_of};
ghost use Rattle.table.specs.TaskModel.{arrays_of, tasks_of};
ghost use Rattle.walk.specs.Stuck.{BeforeStop, FirstWhere, PointJudged, Stuck};

use pieces::task::room_at;
use table::Table;

// The first phase of task i that has no room in the margin.
// (As `(0..many).find(..)` it was tried, and the proof did not close.)
fn lacking(table: &Table, i: usize, margin: u64) -> Option<usize>
    requires { (i < tasks_most) × (get_or table.now.phases i 0 ≤ phases_most) }
    ensures { FirstWhere (get_or table.now.phases i 0) (λ j. (phases_of (tasks_of table.now)).room i j margin ≡ false) result }
{
    for j in 0..table.phases[i] as usize {
        if !room_at(table, i, j, margin) {
            return Some(j);
        }
    }
    None
}

// The first phase of task i that is stuck at t. A task whose deadline is not after t does not block.
fn stuck_phase(table: &Table, i: usize, t: u64, margin: u64) -> Option<usize>
    requires { (i < tasks_most) × (get_or table.now.phases i 0 ≤ phases_most) }
    ensures { FirstWhere (get_or table.now.phases i 0) (Stuck (arrays_of table.now) t margin i) result }
{
    if u64::from(table.deadline[i]) <= t {
        return None;
    }
    lacking(table, i, margin)
}

// Why the walk stops: the blocked task and phase, numbered from 1, or 0 and 0 where the demand is above the point. (Two numbers and no enum: they are
// those that `answer::refused` writes.)
// Stays two numbers with 0 and 0: document 01's answer and C have them so.
#[derive(Clone, Copy)]
pub struct Blocked {
    pub task: usize,
    pub phase: usize,
}

// The first task that has a phase stuck at t, with its first such phase.
fn first_stuck(table: &Table, t: u64, demand: u64) -> Option<Blocked>
    requires { (demand ≤ t) × (table.now.tasks ≤ tasks_most) × Below table.now.tasks (λ i. get_or table.now.phases i 0 ≤ phases_most) }
    ensures { PointJudged (arrays_of table.now) t demand result }
{
    let margin = t - demand;
    for i in 0..table.tasks {
        if let Some(j) = stuck_phase(table, i, t, margin) {
            return Some(Blocked {
                task: i + 1,
                phase: j + 1,
            });
        }
    }
    None
}

// Whether the walk stops at t, and why. Only a margin under the least so far can leave a phase stuck.
pub fn judge_point(table: &Table, t: u64, demand: u64, low: u64) -> Option<Blocked>
    requires { BeforeStop (arrays_of table.now) t demand low }
    ensures { PointJudged (arrays_of table.now) t demand result }
{
    if t < demand {
        return Some(Blocked { task: 0, phase: 0 });
    }
    if low <= t - demand {
        return None;
    }
    first_stuck(table, t, demand)
}
