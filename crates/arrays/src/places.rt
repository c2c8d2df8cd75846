// The places of an array: what stands at one, and a test of each.
ghost use Rattle.std.specs.Prelude.{◌≡◌, ℕ, Bool, ◌<◌, get_or};
ghost use Rattle.finite.specs.Finite.{all_to};

// What stands at a place, and 0 beyond the last.
// Stays a number: the definitions read 0 beyond the last place (`get_or`), and the record has 0 for what is not there.
pub fn at<const N: usize>(array: &[u32; N], place: usize) -> u32
    ensures { result ≡ get_or array.now place 0 }
{
    array.get(place).copied().unwrap_or(0)
}

// Whether every place below N passes the test, which may ask for a place below N. No test waits for the one before it, so that several places are
// tested at a time.
pub fn all_places<const N: usize, F: Fn(usize) -> bool>(holds: F) -> bool
    requires { (place : ℕ) → place < N → F.pre holds place }
    ensures { (p : ℕ → Bool) → ((place : ℕ) (answer : Bool) → place < N → F.post holds place answer → answer ≡ p place) → result ≡ all_to N p }
{
    let mut all = true;
    for place in 0..N {
        all &= holds(place);
    }
    all
}
