// What becomes of each task's jobs in a run. Numbers of ticks and jobs never come near 2^64; nothing here proves it, so the sums are ones that may wrap.

// Of one task the jobs let in and finished, the tick of the last release and the worst response.
#[derive(Clone, Copy)]
pub struct Jobs {
    pub admitted: u64,
    pub finished: u64,
    pub released: u64,
    pub worst: u64,
}

impl Jobs {
    // Before the first tick.
    pub const NONE: Jobs = Jobs {
        admitted: 0,
        finished: 0,
        released: 0,
        worst: 0,
    };

    // One job more is let in, released in this tick.
    fn admit(&mut self, tick: u64) {
        self.admitted = self.admitted.wrapping_add(1);
        self.released = tick;
    }

    // A job finishes: its response is the number of ticks from its release to this one, both included.
    fn complete(&mut self, tick: u64) {
        let response = tick.wrapping_sub(self.released).wrapping_add(1);
        self.finished = self.finished.wrapping_add(1);
        self.worst = self.worst.max(response);
    }
}

// The jobs of every task.
#[derive(Clone, Copy)]
pub struct Tally {
    pub tasks: [Jobs; 32],
}

impl Tally {
    // Before the first tick.
    pub const NONE: Tally = Tally {
        tasks: [Jobs::NONE; 32],
    };

    // One job more of each task in the mask, released in this tick.
    pub(crate) fn admit(&mut self, tick: u64, mask: u32) {
        for (i, jobs) in self.tasks.iter_mut().enumerate() {
            if (mask >> i) % 2 == 1 {
                jobs.admit(tick);
            }
        }
    }

    // A finished job of the task at place i.
    pub(crate) fn complete(&mut self, tick: u64, i: usize) {
        if let Some(jobs) = self.tasks.get_mut(i) {
            jobs.complete(tick);
        }
    }
}
