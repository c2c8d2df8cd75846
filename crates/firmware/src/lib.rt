// The C interface: each export is thin, and repeats the promise of the call that it wraps. include/clinkerbell.h declares it for C.
#![tactic(auto)]

ghost use Rattle.std.specs.Prelude.{◌≡◌};
ghost use Rattle.dispatch.specs.Tick.{Ticks};
ghost use Rattle.firmware.specs.Interface.{JudgesInC, judge_outcome_of, StartsInC, start_outcome_of};

use dispatch::Answer;
use records::Dispatcher;
use start::{How, Started};
use table::TurnedAway;

// What `clinkerbell_judge` returns: reason 0 and the answer's length, or the reason and the place.
// Stays for C: a reason is document 01's number there.
#[repr(C)]
#[derive(Clone, Copy)]
pub struct Outcome {
    pub reason: u32,
    pub place: u64,
    pub length: u64,
}

// The result as C has it.
impl From<Result<usize, TurnedAway>> for Outcome {
    ghost from_gives = { λ outcome in_c. in_c ≡ judge_outcome_of outcome };

    fn from(outcome: Result<usize, TurnedAway>) -> Outcome {
        match outcome {
            Ok(length) => Outcome {
                reason: 0,
                place: 0,
                length: length as u64,
            },
            Err(away) => Outcome {
                reason: u32::from(u8::from(away.reason)),
                place: away.place as u64,
                length: 0,
            },
        }
    }
}

// Judges a table in bytes and writes the answer into the caller's buffer.
#[unsafe(no_mangle)]
pub extern "C" fn clinkerbell_judge(table: &[u8], answer: &mut [u8]) -> Outcome
    ensures { JudgesInC table.now answer.old answer.new result }
{
    Outcome::from(edf::judge(table, answer))
}

// What `clinkerbell_start` returns: 0 ready, with the record before its first tick; 1 refused, with the witness, the demand there, the points
// examined, and the blocked task and phase; 2 turned away, with the reason and the place.
// Stays for C: the outcome and the reason are numbers there.
#[repr(C)]
#[derive(Clone, Copy)]
pub struct StartOutcome {
    pub how: u32,
    pub reason: u32,
    pub place: u64,
    pub witness: u64,
    pub demand: u64,
    pub points: u64,
    pub task: u32,
    pub phase: u32,
    pub dispatcher: Dispatcher,
}

// The enum beside the record, as C has them.
impl From<Started> for StartOutcome {
    ghost from_gives = { λ started in_c. in_c ≡ start_outcome_of started.how started.dispatcher };

    fn from(started: Started) -> StartOutcome {
        let ready = StartOutcome {
            how: 0,
            reason: 0,
            place: 0,
            witness: 0,
            demand: 0,
            points: 0,
            task: 0,
            phase: 0,
            dispatcher: started.dispatcher,
        };
        match started.how {
            How::Ready => ready,
            How::Refused(refusal) => StartOutcome {
                how: 1,
                witness: refusal.witness,
                demand: refusal.demand,
                points: refusal.points,
                task: refusal.task,
                phase: refusal.phase,
                ..ready
            },
            How::TurnedAway(away) => StartOutcome {
                how: 2,
                reason: u32::from(u8::from(away.reason)),
                place: away.place as u64,
                ..ready
            },
        }
    }
}

// Starts a dispatcher on a table in bytes.
#[unsafe(no_mangle)]
pub extern "C" fn clinkerbell_start(table: &[u8]) -> StartOutcome
    ensures { StartsInC table.now result }
{
    StartOutcome::from(start::start(table))
}

// Moves the caller's own record forward by a tick.
// Stays a flag: document 01's tick takes one, and C hands it in.
#[unsafe(no_mangle)]
pub extern "C" fn clinkerbell_tick(dispatcher: &mut Dispatcher, mask: u32, flag: bool) -> Answer
    ensures { Ticks dispatcher.old mask flag dispatcher.new result }
{
    lent::tick(dispatcher, mask, flag)
}
