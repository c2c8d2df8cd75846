// A choice that compiles without a branch, and the index of what is numbered from 1.
ghost use Rattle.std.specs.Prelude.{◌≡◌, cond, ◌-◌, ◌<◌};

// The first where the test holds, and otherwise the second.
// Stays a flag: it is the conditional itself, without a branch, and no switch between steps.
pub fn choose<T: Copy>(holds: bool, first: T, second: T) -> T
    ensures { result ≡ cond holds first second }
{
    if holds { first } else { second }
}

// The index of what is numbered from 1.
pub fn from_one(number: u32) -> usize
    ensures { (result ≡ number - 1) × (result < 4294967296) }
{
    number.saturating_sub(1) as usize
}
