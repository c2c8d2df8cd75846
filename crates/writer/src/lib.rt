// Writes a task table in bytes.
// A pass over a table's numbers gives them to a sink: one that only counts their bytes, and then one that writes them. So the length that is tested
// and what is written come of one and the same pass.
#![tactic(auto)]

ghost use Rattle.std.specs.Prelude.{false, [], ◌∷◌, ◌≡◌, ◌+◌, ◌*◌, ◌≤◌, ◌<◌, ltb, length, get_or};
ghost use Rattle.model.specs.Ranges.{phases_most, tasks_most};
ghost use Rattle.finite.specs.Finite.{any_to, join_to};
ghost use Rattle.groups.specs.Sinks.{Counts, RoomFor, Fills};
ghost use Rattle.writer.specs.Written.{phase_items, task_items, table_items, overfull, Writes};

use groups::{Filling, Measuring, Sink};
use table::Table;

// Why a table was not written.
#[derive(Clone, Copy, Debug, PartialEq, Eq)]
pub enum TableError {
    NoRoom,
    OutOfRange,
}

// So many phases, c and q of each, the first of them at place `first`.
fn phases<S: Sink>(sink: &mut S, table: &Table, first: usize, count: usize)
    requires inside { first + count ≤ 256 }
    requires room { S.takes sink.old (join_to count (λ j. phase_items table.now.work table.now.cost (first + j))) }
    ensures { S.passed sink.old (join_to count (λ j. phase_items table.now.work table.now.cost (first + j))) sink.new }
{
    for j in 0..count {
        let work = u64::from(table.work[first + j]);
        let cost = u64::from(table.cost[first + j]);
        groups::pass(sink, &[work, cost]);
    }
}

// Task i: T, D, the number of phases; then the phases.
fn task<S: Sink>(sink: &mut S, table: &Table, i: usize)
    requires some_task { i < tasks_most }
    requires inside { 8 * i + get_or table.now.phases i 0 ≤ 256 }
    requires room { S.takes sink.old (task_items table.now i) }
    ensures { S.passed sink.old (task_items table.now i) sink.new }
{
    let spacing = u64::from(table.spacing[i]);
    let deadline = u64::from(table.deadline[i]);
    let count = table.phases[i];
    groups::pass(sink, &[spacing, deadline, u64::from(count)]);
    phases(sink, table, 8 * i, count as usize);
}

// The whole table: the number of tasks, and the tasks.
fn numbers<S: Sink>(sink: &mut S, table: &Table)
    requires held { overfull table.now ≡ false }
    requires room { S.takes sink.old (table_items table.now) }
    ensures { S.passed sink.old (table_items table.now) sink.new }
{
    sink.number(table.tasks as u64);
    for i in 0..table.tasks {
        task(sink, table, i);
    }
}

// Whether one of the tasks has more phases than a task may have; the table has a place for each task.
fn has_long_task(table: &Table) -> bool
    requires { table.now.tasks ≤ tasks_most }
    ensures { result ≡ any_to table.now.tasks (λ i. ltb phases_most (get_or table.now.phases i 0)) }
{
    table.phases[..table.tasks]
        .iter()
        .any(|phases| Table::PHASES_MOST < u64::from(*phases))
}

// How many bytes the numbers of a table make that its arrays hold.
fn size(table: &Table) -> usize
    requires { overfull table.now ≡ false }
    ensures { Counts 0 result (table_items table.now) }
{
    let mut sink = Measuring { bytes: 0 };
    numbers(&mut sink, table);
    sink.bytes
}

// Writes them to the front of a buffer that has room, and answers how many bytes they are.
fn fill(table: &Table, out: &mut [u8]) -> usize
    requires held { overfull table.now ≡ false }
    requires room { RoomFor out.old 0 (table_items table.now) }
    ensures { Fills out.old out.new 0 result (table_items table.now) }
{
    let mut sink = Filling {
        buffer: out,
        next: 0,
    };
    numbers(&mut sink, table);
    sink.next
}

// Writes the table's bytes to the front of the buffer, and answers how many they are. Nothing is written where the buffer is shorter than they are,
// or where the table has more tasks or phases than its arrays hold.
pub fn write(table: &Table, out: &mut [u8]) -> Result<usize, TableError>
    ensures { Writes table.now out.old out.new result }
{
    if Table::TASKS_MOST < table.tasks as u64 || has_long_task(table) {
        return Err(TableError::OutOfRange);
    }
    if out.len() < size(table) {
        return Err(TableError::NoRoom);
    }
    Ok(fill(table, out))
}
