// The phases of one task of a lent table, eight places a task.
ghost use Rattle.std.specs.Prelude.{true, ◌≡◌, ◌+◌, ◌≤◌, ◌<◌};
ghost use Rattle.model.specs.Arrays.{phase_at};
ghost use Rattle.model.specs.Ranges.{horizon_most, phases_most, tasks_most};
ghost use Rattle.model.specs.Phase.{brings, phases_of};
ghost use Rattle.model.specs.Works.{longest};
ghost use Rattle.pieces.specs.Bounds.{phase_most, piece_most};
ghost use Rattle.pieces.specs.Task.{InPieces, PhaseFits, Roomy, needs};
ghost use Rattle.table.specs.TaskModel.{tasks_of};

use crate::phase;
use table::Table;

// What stands at phase j of task i.
pub fn phase_at(array: &[u32; 256], i: usize, j: usize) -> u32
    requires { (i < tasks_most) × (j < phases_most) }
    ensures { result ≡ phase_at array.now i j }
{
    array[8 * i + j]
}

// Whether phase j of task i has room in a margin. (The work does not tell today.)
pub fn room_at(table: &Table, i: usize, j: usize, margin: u64) -> bool
    requires { (i < tasks_most) × (j < phases_most) }
    ensures { result ≡ (phases_of (tasks_of table.now)).room i j margin }
{
    phase::room(phase_at(&table.cost, i, j), margin)
}

// The least count for which every piece of phase j of task i fits a margin.
// Stays beside `brought_at`: alike in shape alone, each calls another function of a phase's numbers.
pub fn need_at(table: &Table, i: usize, j: usize, margin: u64) -> u64
    requires { (i < tasks_most) × (j < phases_most) × ((phases_of (tasks_of table.now)).room i j margin ≡ true) × (margin ≤ horizon_most) }
    ensures { result ≡ (phases_of (tasks_of table.now)).need i j margin }
{
    let work = phase_at(&table.work, i, j);
    let cost = phase_at(&table.cost, i, j);
    phase::need(work, cost, margin)
}

// What phase j of task i brings to the budget under that count.
// Stays beside `need_at`: alike in shape alone, each calls another function of a phase's numbers.
pub fn brought_at(table: &Table, i: usize, j: usize, margin: u64) -> u64
    requires { (i < tasks_most) × (j < phases_most) × PhaseFits (phase_at table.now.work i j) (phase_at table.now.cost i j) margin }
    ensures { (result ≡ brings (tasks_of table.now) (needs (phases_of (tasks_of table.now)) margin) i j) × (result ≤ phase_most) }
{
    let work = phase_at(&table.work, i, j);
    let cost = phase_at(&table.cost, i, j);
    phase::least_brought(work, cost, margin)
}

// The longest piece of phase j of task i under the counts.
pub fn piece_at(table: &Table, counts: &[u32; 256], i: usize, j: usize) -> u64
    requires { (i < tasks_most) × (j < phases_most) × (0 < phase_at counts.now i j) }
    ensures { (result ≡ (phases_of (tasks_of table.now)).longest_piece i j (phase_at counts.now i j)) × (result ≤ phase_at table.now.work i j + phase_at table.now.cost i j) }
{
    let work = phase_at(&table.work, i, j);
    let cost = phase_at(&table.cost, i, j);
    phase::longest(work, cost, phase_at(counts, i, j))
}

// The budget of task i where each of its phases has the least count for a margin.
#[tactic(auto, using(crate::specs::laws::Loops::adding_turns))]
pub fn budget_under(table: &Table, i: usize, margin: u64) -> u64
    requires { Roomy (tasks_of table.now) margin i }
    ensures { result ≡ (phases_of (tasks_of table.now)).budget (needs (phases_of (tasks_of table.now)) margin) i }
{
    let mut sum: u64 = 0;
    for j in 0..table.phases[i] as usize {
        sum += brought_at(table, i, j, margin);
    }
    sum
}

// The longest piece of task i under the counts.
#[tactic(auto, using(crate::specs::laws::Loops::rising_turns))]
pub fn longest_of(table: &Table, counts: &[u32; 256], i: usize) -> u64
    requires { InPieces (tasks_of table.now) (phase_at counts.now) i }
    ensures { (result ≡ longest (tasks_of table.now) (phases_of (tasks_of table.now)) (phase_at counts.now) i) × (result ≤ piece_most) }
{
    let mut top: u64 = 0;
    for j in 0..table.phases[i] as usize {
        top = top.max(piece_at(table, counts, i, j));
    }
    top
}
