// The horizon of a table, the least common multiple of its spacings, under its limit; and the sum of H/T over the tasks.
ghost use Rattle.std.specs.Prelude.{◌≡◌, ◌/◌, ◌≤◌, ◌<◌, get_or};
ghost use Rattle.finite.specs.Finite.{sum_to};
ghost use Rattle.model.specs.Ranges.{horizon_most};
ghost use Rattle.model.specs.TestPoints.{gcd, lcm, lcm_to};
ghost use Rattle.table.specs.Horizon.{none_above, Spacings};

use crate::Table;

// The greatest common divisor: the second number falls at each call.
// Stays a recursion with its test: document 01 names this form.
#[tactic(auto, using(crate::proofs::Multiples::gcd_zero, crate::proofs::Multiples::gcd_step))]
fn gcd(a: u64, b: u64) -> u64
    ensures { result ≡ gcd a b }
{
    if b == 0 { a } else { gcd(b, a % b) }
}

// The least common multiple, where it is within the horizon's limit. The product is formed only where it fits.
#[tactic(auto, using(crate::proofs::Multiples::divisor_positive, crate::proofs::Multiples::within_under, crate::proofs::Multiples::within_above))]
fn lcm_within(a: u64, b: u64) -> Option<u64>
    requires { (0 < a) × (0 < b) }
    ensures { result ≡ none_above horizon_most (lcm a b) }
{
    let k = a / gcd(a, b);
    if Table::HORIZON_MOST / b < k {
        None
    } else {
        Some(k * b)
    }
}

// The horizon of a table, where it is within its limit. (A layer's own call: the reader has tested the spacings.)
pub fn horizon(table: &Table) -> Option<u64>
    requires { Spacings table.now.spacing table.now.tasks }
    ensures { result ≡ none_above horizon_most (lcm_to table.now.tasks (λ i. get_or table.now.spacing i 0)) }
{
    // With no task yet it is the least there is.
    let mut h = Table::HORIZON_LEAST;
    for &spacing in &table.spacing[..table.tasks] {
        h = lcm_within(h, u64::from(spacing))?;
    }
    Some(h)
}

// The sum of h over each of a table's spacings. (A layer's own call: h is a horizon within its limit.)
// (As `map(..).sum()` it was tried, and the proof did not close.)
pub fn jobs_within(table: &Table, h: u64) -> u64
    requires { Spacings table.now.spacing table.now.tasks × (h ≤ horizon_most) }
    ensures { result ≡ sum_to table.now.tasks (λ i. h / get_or table.now.spacing i 0) }
{
    let mut sum: u64 = 0;
    for &spacing in &table.spacing[..table.tasks] {
        sum += h / u64::from(spacing);
    }
    sum
}
