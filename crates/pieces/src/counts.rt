// The arrays of a judged table: its counts, 256 places, and its longest pieces, 32.
ghost use Rattle.std.specs.Prelude.{◌≡◌, ◌<◌, get_or, length};
ghost use Rattle.finite.specs.Finite.{Below, list_to};
ghost use Rattle.model.specs.Arrays.{phase_at};
ghost use Rattle.pieces.specs.Counts.{count_at, longest_at};
ghost use Rattle.pieces.specs.Task.{InPieces, Roomy};
ghost use Rattle.table.specs.TaskModel.{tasks_of};

use crate::task::{longest_of, need_at};
use table::Table;

// An array whose places are filled one by one with what f gives for them.
// Stays a loop of its own, where std has `array::from_fn`: document 01 has the counts start as [0; 256] and be filled.
fn filled<const N: usize, F: Fn(usize) -> u32>(f: F) -> [u32; N]
    requires { Below N (F.pre f) }
    ensures long { length result ≡ N }
    ensures each { Below N (λ place. F.post f place (get_or result place 0)) }
{
    let mut all = [0u32; N];
    for place in 0..N {
        all[place] = f(place);
    }
    all
}

// The count at a place: the least for its task's margin, and 0 where no phase stands.
// Stays a number: document 01 has 0 at an unused place.
#[tactic(auto, unfolding(crate::specs::Counts::count_at))]
fn count_at(table: &Table, cuts: &[u64; 32], place: usize) -> u32
    requires { (place < 256) × Below table.now.tasks (λ i. Roomy (tasks_of table.now) (get_or cuts.now i 0) i) }
    ensures { result ≡ count_at table.now.tasks (tasks_of table.now) (λ i. get_or cuts.now i 0) place }
{
    let i = place / 8;
    let j = place % 8;
    if table.tasks <= i {
        return 0;
    }
    if table.phases[i] as usize <= j {
        return 0;
    }
    need_at(table, i, j, cuts[i]) as u32
}

// The counts: the least for each task's margin, in a phase's place; unused places are 0.
// Stays beside `longests`: both are one call of the one `filled`.
pub fn counts(table: &Table, cuts: &[u64; 32]) -> [u32; 256]
    requires { Below table.now.tasks (λ i. Roomy (tasks_of table.now) (get_or cuts.now i 0) i) }
    ensures { result ≡ list_to 256 (count_at table.now.tasks (tasks_of table.now) (λ i. get_or cuts.now i 0)) }
{
    filled(|place| count_at(table, cuts, place))
}

// The longest piece at a task's place, and 0 where there is no task.
// Stays a number: an unused place is 0, as in the counts.
#[tactic(auto, unfolding(crate::specs::Counts::longest_at))]
fn longest_at(table: &Table, counts: &[u32; 256], i: usize) -> u32
    requires { Below table.now.tasks (InPieces (tasks_of table.now) (phase_at counts.now)) }
    ensures { result ≡ longest_at table.now.tasks (tasks_of table.now) (phase_at counts.now) i }
{
    if table.tasks <= i {
        return 0;
    }
    longest_of(table, counts, i) as u32
}

// The longest piece of each task; unused places are 0.
// Stays beside `counts`: both are one call of the one `filled`.
pub fn longests(table: &Table, counts: &[u32; 256]) -> [u32; 32]
    requires { Below table.now.tasks (InPieces (tasks_of table.now) (phase_at counts.now)) }
    ensures { result ≡ list_to 32 (longest_at table.now.tasks (tasks_of table.now) (phase_at counts.now)) }
{
    filled(|i| longest_at(table, counts, i))
}
