// The tick's rules on the record, which is lent and never copied: whom to let in, which job goes first, and which piece of it is due. Tasks are
// numbered from 1, with 0 for none, as in the record that C has.
ghost use Rattle.std.specs.Prelude.{◌≡◌, ◌+◌, ◌*◌, ◌^◌, ◌<◌};
ghost use Rattle.finite.specs.Masks.{digit, mask_of};
ghost use Rattle.records.specs.Rules.{enters_of, urgent_of, place_of, ticks_of, due_of};

use crate::Dispatcher;
use arrays::numbers::{choose, from_one};
use arrays::places::at;

// The piece of a task (from 1; 0 for none) that runs or is next due: its phase and number, and how many of each there are.
// Stays with 0 for none, as its definition (`due_of`) and the record have it.
#[derive(Clone, Copy)]
pub struct Due {
    pub task: u32,
    pub phase: u32,
    pub piece: u32,
    pub pieces: u32,
    pub phases: u32,
}

// The mask with a task's bit besides, where it enters.
// Stays a flag: whether the task enters is data, and no switch between steps.
fn with_bit(entered: u32, task: usize, enters: bool) -> u32
    requires { (task < 32) × (entered < 2 ^ task) }
    ensures { result ≡ digit enters * 2 ^ task + entered }
{
    if enters {
        (1 << task) + entered
    } else {
        entered
    }
}

impl Dispatcher {
    // ---- rule 1: whom to let in

    // The mask of those let in, in one pass over the tasks without a branch, so that several are tested at a time.
    pub fn let_in(&self, mask: u32) -> u32
        ensures { result ≡ mask_of 32 (enters_of self.now mask) }
    {
        let count = self.tasks as usize;
        let mut entered = 0;
        for i in 0..32 {
            let asked = (mask >> i) % 2 == 1;
            let enters = asked
                & (i < count)
                & (self.unfinished[i] != 1)
                & (self.spacing[i] <= self.since[i]);
            entered = with_bit(entered, i, enters);
        }
        entered
    }

    // ---- rule 2: the job that goes first, and the ticks of its piece

    // The task (from 1; 0 for none) of the unfinished job with least time left; on equal time left, the lower number.
    // Stays a number: 0 is no task in the record and in the answer, as C has them.
    pub fn urgent(&self) -> u32
        ensures { result ≡ urgent_of self.now 32 }
    {
        let mut best = 0;
        let mut least = self.left[0];
        for i in 0..32 {
            let time = self.left[i];
            let better = (self.unfinished[i] == 1) & ((best == 0) | (time < least));
            best = choose(better, i as u32 + 1, best);
            least = choose(better, time, least);
        }
        best
    }

    // The place of a task's (from 1) due phase in the arrays of 256.
    fn due_place(&self, task: u32) -> usize
        ensures { result ≡ place_of self.now task }
    {
        let task_place = from_one(task);
        let phase_place = from_one(at(&self.phase, task_place));
        8 * task_place + phase_place
    }

    // The ticks of a task's (from 1) running or next due piece.
    pub fn due_ticks(&self, task: u32) -> u64
        ensures { result ≡ ticks_of self.now task }
    {
        let place = self.due_place(task);
        let due_work = at(&self.work, place);
        let due_cost = at(&self.cost, place);
        let due_count = at(&self.counts, place);
        let due = at(&self.piece, from_one(task)).saturating_sub(1);
        pieces::phase::length(due_work, due_cost, due_count, due)
    }

    // ---- rule 3: the piece that runs

    // The running or next due piece of a task (from 1).
    pub fn due_piece(&self, task: u32) -> Due
        ensures { result ≡ due_of self.now task }
    {
        let task_place = from_one(task);
        let place = self.due_place(task);
        Due {
            task,
            phase: at(&self.phase, task_place),
            piece: at(&self.piece, task_place),
            pieces: at(&self.counts, place),
            phases: at(&self.phases, task_place),
        }
    }
}
