// The items of a table in bytes, read from left to right: a number, a phase, a task, and the loops over phases and tasks, which put what they
// read into a table. Each goes on from where the one before it stopped, or answers why and where the table is turned away.
ghost use Rattle.std.specs.Prelude.{◌≡◌, ◌-◌, ◌≤◌, ◌<◌, IfOk};
ghost use Rattle.groups.specs.Number.{number_at};
ghost use Rattle.table.specs.Parse.{each, number_in, phase, task};
ghost use Rattle.table.specs.Steps.{Reads, all_tasks, found_at, number_of, up_to, with_read};

use crate::{Reason, Table, TurnedAway};
use groups::{Number, NumberError};

// The bytes of a table, and the place that reading has come to.
// Stays with a place: a reason's place is one of the whole bytes.
#[derive(Drop)]
struct Reader<'a> {
    bytes: &'a [u8],
    at: usize,
}

impl Reader<'_> {
    // What is found where a number is due: the number and the place behind it, or why and where the table is turned away.
    #[inline]
    fn found(&self) -> Result<Number, TurnedAway>
        ensures { result ≡ found_at self.now.bytes.now self.now.at (number_at self.now.bytes.now self.now.at) }
    {
        // Stays a match: a From has no place to give.
        match groups::read(self.bytes, self.at) {
            Ok(number) => Ok(number),
            Err(NumberError::Ends) => Err(TurnedAway {
                reason: Reason::Ends,
                place: self.bytes.len(),
            }),
            Err(NumberError::Malformed) => Err(TurnedAway {
                reason: Reason::Malformed,
                place: self.at,
            }),
        }
    }

    // The number from `least` to `most` that is due, and the place behind it.
    #[inline(always)]
    fn due(&self, least: u64, most: u64) -> Result<Number, TurnedAway>
        ensures is { result ≡ number_of (number_in least most self.now.bytes.now self.now.at) }
        ensures high { IfOk result (λ n. n.value ≤ most) }
    {
        let found = self.found();
        // Stays a let .. else, where `?` would do: document 01 names this form for this place.
        let Ok(number) = found else {
            return found;
        };
        if !(least..=most).contains(&number.value) {
            return Err(TurnedAway {
                reason: Reason::OutOfRange,
                place: self.at,
            });
        }
        Ok(number)
    }

    // The next number, from `least` to `most`. (Inlined, and what it calls too: a call for each number takes half as much time again.)
    #[inline(always)]
    fn number(&mut self, least: u64, most: u64) -> Result<u64, TurnedAway>
        ensures reads { Reads (number_in least most) self.old self.new result }
        ensures high { IfOk result (λ v. v ≤ most) }
    {
        let number = self.due(least, most)?;
        self.at = number.next;
        Ok(number.value)
    }

    // The next phase, put at place k of the table.
    fn phase(&mut self, k: usize, table: &mut Table) -> Result<(), TurnedAway>
        requires { k < 256 }
        ensures { Reads (phase k table.old) self.old self.new (with_read table.new result) }
    {
        let work = self.number(Table::WORK_LEAST, Table::WORK_MOST)?;
        let cost = self.number(Table::COST_LEAST, Table::COST_MOST)?;
        table.work[k] = work as u32;
        table.cost[k] = cost as u32;
        Ok(())
    }

    // The next phases, put at the places of the table from `first` up to `last`.
    fn phases(&mut self, first: usize, last: usize, table: &mut Table) -> Result<(), TurnedAway>
        requires { last ≤ 256 }
        ensures { Reads (each phase (last - first) first table.old) self.old self.new (with_read table.new result) }
    {
        for k in first..last {
            self.phase(k, table)?;
        }
        Ok(())
    }

    // The next task, put into the table as task i: T, D, the number of phases, and the phases.
    fn task(&mut self, i: usize, table: &mut Table) -> Result<(), TurnedAway>
        requires { i < 32 }
        ensures { Reads (task i table.old) self.old self.new (with_read table.new result) }
    {
        let spacing = self.number(Table::SPACING_LEAST, Table::SPACING_MOST)?;
        let deadline = self.number(Table::DEADLINE_LEAST, spacing)?;
        let count = self.number(Table::PHASES_LEAST, Table::PHASES_MOST)?;
        table.spacing[i] = spacing as u32;
        table.deadline[i] = deadline as u32;
        table.phases[i] = count as u32;
        let first = 8 * i;
        self.phases(first, first + count as usize, table)
    }
}

// The number of tasks and the tasks, put into the table: the place behind them.
pub fn tasks(bytes: &[u8], table: &mut Table) -> Result<usize, TurnedAway>
    ensures { all_tasks table.old bytes.now 0 ≡ up_to table.new result }
{
    let mut reader = Reader { bytes, at: 0 };
    let count = reader.number(Table::TASKS_LEAST, Table::TASKS_MOST)?;
    table.tasks = count as usize;
    for i in 0..table.tasks {
        reader.task(i, table)?;
    }
    Ok(reader.at)
}
