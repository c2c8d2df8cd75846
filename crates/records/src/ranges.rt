// The ranges of the record's fields, without a branch, so that several places are compared at a time. The most of each number is the table's.
ghost use Rattle.std.specs.Prelude.{◌≡◌, ◌<◌};
ghost use Rattle.finite.specs.Finite.{all_to};
ghost use Rattle.model.specs.Arrays.{phase_at};
ghost use Rattle.model.specs.Ranges.{task_test};
ghost use Rattle.records.specs.Lent.{changing_all, in_place, job_at, numbers_at, piece_at, running_all, since_at};
ghost use Rattle.records.specs.Held.{held_in, held_test, tasks_in};

use crate::Dispatcher;
use arrays::numbers::{choose, from_one};
use arrays::places::{all_places, at};
use table::Table;

// A number of a phase from `least` to `most`; 0 at a place that is not used.
// Stays a flag: whether a place is used is data, and the test has no branch.
fn in_place(used: bool, least: u32, most: u32, number: u32) -> bool
    ensures { result ≡ in_place used least most number }
{
    (choose(used, least, 0) <= number) & (number <= choose(used, most, 0))
}

// The count of a phase, from 1 to its work.
// Stays a flag: whether a place is used is data, and the test has no branch.
fn count_in(used: bool, work: u32, count: u32) -> bool
    ensures { result ≡ in_place used 1 work count }
{
    choose(used, 1 <= count, count == 0) & (count <= work)
}

impl Dispatcher {
    // ---- what no tick changes

    // T, D and the number of phases of task i; zeros where there is no task.
    fn task_at(&self, i: usize) -> bool
        requires { i < 32 }
        ensures { result ≡ task_test (tasks_in self.now) i }
    {
        let least_spacing = self.spacing[i];
        let due_within = self.deadline[i];
        let many = self.phases[i];
        let there = ((1 <= least_spacing) & (least_spacing <= Table::SPACING_MOST as u32))
            & ((1 <= due_within) & (due_within <= least_spacing))
            & ((1 <= many) & (many <= Table::PHASES_MOST as u32));
        let absent = (least_spacing == 0) & (due_within == 0) & (many == 0);
        choose(i < self.tasks as usize, there, absent)
    }

    // The work, the switching cost and the count at a place of the arrays of 256. A work is at least 1 where its count is in its range, and is not
    // tested for that (with that test, and the count's like the others, a tick has 15 % more instructions).
    fn numbers_at(&self, place: usize) -> bool
        requires { place < 256 }
        ensures { result ≡ numbers_at self.now place }
    {
        let used = ((place % 8) as u32) < self.phases[place / 8];
        let work = self.work[place];
        in_place(used, 0, Table::WORK_MOST as u32, work)
            & in_place(used, 0, Table::COST_MOST as u32, self.cost[place])
            & count_in(used, work, self.counts[place])
    }

    // The table and the counts. One loop tests every number of a phase: to find out which places are used costs most of it.
    pub(crate) fn held_in(&self) -> bool
        ensures { result ≡ held_test (held_in self.now) }
    {
        let each_task = all_places::<32, _>(|i| self.task_at(i));
        let each_phase = all_places::<256, _>(|place| self.numbers_at(place));
        (self.tasks <= Table::TASKS_MOST as u32) & each_task & each_phase
    }

    // ---- what a tick changes

    // The job of task i, but for the most of its piece.
    fn job_at(&self, i: usize) -> bool
        requires { i < 32 }
        ensures { result ≡ job_at self.now i }
    {
        let flag = self.unfinished[i];
        let time = self.left[i];
        let due_phase = self.phase[i];
        let due_piece = self.piece[i];
        let there = (time <= self.deadline[i])
            & ((1 <= due_phase) & (due_phase <= self.phases[i]))
            & (1 <= due_piece);
        let absent = (time == 0) & (due_phase == 0) & (due_piece == 0);
        (flag <= 1) & choose(flag == 1, there, absent)
    }

    // What stands at phase j of task i.
    // Stays a number: the definition reads 0 beyond the eighth phase (`phase_at`).
    fn count_at_phase(&self, i: usize, j: usize) -> u32
        requires { i < 32 }
        ensures { result ≡ phase_at self.now.counts i j }
    {
        if j < 8 { self.counts[8 * i + j] } else { 0 }
    }

    // The most of the piece of task i.
    fn piece_at(&self, i: usize) -> bool
        requires { i < 32 }
        ensures { result ≡ piece_at self.now i }
    {
        self.piece[i] <= self.count_at_phase(i, from_one(self.phase[i]))
    }

    // What a tick changes, of all tasks. The pieces have a loop of their own, since its reads lie apart.
    pub(crate) fn changing_in(&self) -> bool
        ensures { result ≡ changing_all self.now }
    {
        let rests = all_places::<32, _>(|i| self.since[i] <= self.spacing[i]);
        let jobs = all_places::<32, _>(|i| self.job_at(i));
        let pieces = all_places::<32, _>(|i| self.piece_at(i));
        rests & jobs & pieces
    }

    // ---- the running piece

    // The running task and the ticks left of its piece; 0 and 0 where none runs.
    pub(crate) fn running_in(&self) -> bool
        ensures { result ≡ running_all self.now }
    {
        let unfinished = at(&self.unfinished, from_one(self.running)) == 1;
        let most = self.due_ticks(self.running);
        choose(
            self.running == 0,
            self.ticks == 0,
            (self.running <= self.tasks) & unfinished & ((1 <= self.ticks) & (self.ticks <= most)),
        )
    }
}
