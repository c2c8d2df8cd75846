// One phase, by its numbers: work, switching cost, count, margin. They stay numbers, and no struct: table and
// record hold them in arrays of numbers, so that a struct would be made for each call and taken apart in it. The contracts are in the words of model/specs/Phase.
ghost use Rattle.std.specs.Prelude.{◌≡◌, true, ◌+◌, ◌*◌, ◌≤◌, ◌<◌};
ghost use Rattle.model.specs.Ranges.{cost_most, horizon_most, work_most};
ghost use Rattle.model.specs.Phase.{has_room, longest_piece, needed, piece_length};
ghost use Rattle.pieces.specs.Bounds.{phase_most};
ghost use Rattle.pieces.specs.Task.{PhaseFits};

// The length of a piece, numbered from 0. It is what ℕ's division gives for every number (by 0, the quotient is 0 and all is left), so that nobody
// who asks has to know a range.
#[tactic(auto, using(crate::specs::laws::Numbers::division), unfolding(model::specs::Phase::piece_length))]
pub fn length(work: u32, cost: u32, count: u32, piece: u32) -> u64
    ensures { result ≡ piece_length work cost count piece }
{
    let whole = work.checked_div(count).unwrap_or(0);
    let left = work.checked_rem(count).unwrap_or(work);
    u64::from(whole) + u64::from(piece < left) + u64::from(cost)
}

// The longest piece.
#[tactic(auto, using(crate::specs::laws::Task::rounding), unfolding(model::specs::Phase::longest_piece))]
pub fn longest(work: u32, cost: u32, count: u32) -> u64
    requires { 0 < count }
    ensures { (result ≡ longest_piece work cost count) × (result ≤ work + cost) }
{
    u64::from(work.div_ceil(count)) + u64::from(cost)
}

// Whether some count makes every piece fit the margin.
pub fn room(cost: u32, margin: u64) -> bool
    ensures { result ≡ has_room cost margin }
{
    u64::from(cost) < margin
}

// The least count that does.
#[tactic(auto, using(crate::specs::laws::Task::rounding))]
pub fn need(work: u32, cost: u32, margin: u64) -> u64
    requires { (has_room cost margin ≡ true) × (margin ≤ horizon_most) }
    ensures { (result ≡ needed work cost margin) × (result ≤ work) }
{
    u64::from(work).div_ceil(margin - u64::from(cost))
}

// What the phase brings to its task's budget under a count.
pub fn brought(work: u32, cost: u32, count: u64) -> u64
    requires { (work ≤ work_most) × (cost ≤ cost_most) × (count ≤ work_most) }
    ensures { (result ≡ work + count * cost) × (result ≤ phase_most) }
{
    u64::from(work) + count * u64::from(cost)
}

// What it brings under the least count for a margin.
pub fn least_brought(work: u32, cost: u32, margin: u64) -> u64
    requires { PhaseFits work cost margin }
    ensures { (result ≡ work + needed work cost margin * cost) × (result ≤ phase_most) }
{
    brought(work, cost, need(work, cost, margin))
}
