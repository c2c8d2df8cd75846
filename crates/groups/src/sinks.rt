// Where a pass over numbers leaves their bytes: in a lent buffer, or nowhere, where they are only counted.

ghost use Rattle.std.specs.Prelude.{ℕ, List, All, [], ◌∷◌, ◌≡◌, ◌^◌, ◌<◌};
ghost use Rattle.groups.specs.Sinks.{SinkLaws, Counts, Countable, RoomFor, Fills};
ghost use Rattle.groups.specs.SinkLaws.{counts_none, count_front, count_rest, count_joined, fills_none, fill_front, fill_rest, fill_joined};
ghost use Rattle.std.proofs.Common.{refl, ◌∙◌};

use crate::{put, size};

// What takes numbers one by one. A function that passes numbers on is generic over it, and so does not know what becomes of their bytes.
pub trait Sink {
    // It can take these numbers' bytes.
    ghost takes: { Self → List ℕ → Type 0 };

    // From the first state to the second these numbers were passed to it, one behind the other.
    ghost passed: { Self → List ℕ → Self → Type 0 };

    ghost laws: { SinkLaws takes passed };

    // The next number. (What it requires is what `put` requires: whoever passes numbers has made sure of it once for all of them.)
    fn number(&mut self, value: u64)
        requires small { value < 2 ^ 56 }
        requires room { takes self.old (value ∷ []) }
        ensures { passed self.old (value ∷ []) self.new };
}

// The numbers' bytes are counted, and written nowhere.
#[derive(Drop)]
pub struct Measuring {
    pub bytes: usize,
}

impl Sink for Measuring {
    ghost takes = { λ s ns. Countable s.bytes ns };

    ghost passed = { λ s ns t. Counts s.bytes t.bytes ns };

    ghost laws = { record {
      nothing = λ s. counts_none s.bytes;
      front_fits = λ s ms ns. count_front ms ns;
      rest_fits = λ s t ms ns. count_rest ms ns;
      joined = λ s t u ms ns. count_joined ms ns;
    } };

    fn number(&mut self, value: u64) {
        self.bytes += size(value);
    }
}

// The numbers' bytes are written into the buffer, from place `next` on.
// Stays with a place: what it leaves is said of the whole buffer (`Fills`).
#[derive(Drop)]
pub struct Filling<'a> {
    pub buffer: &'a mut [u8],
    pub next: usize,
}

impl<'a> Sink for Filling<'a> {
    ghost takes = { λ s ns. RoomFor s.buffer.now s.next ns };

    ghost passed = { λ s ns t. (t.buffer.ghost_name ≡ s.buffer.ghost_name) × Fills s.buffer.now t.buffer.now s.next t.next ns };

    ghost laws = { record {
      nothing = λ s. (refl, fills_none s.buffer.now s.next);
      front_fits = λ s ms ns. fill_front ms ns;
      rest_fits = λ s t ms ns w. fill_rest ms ns w.1;
      joined = λ s t u ms ns v w. (w.0 ∙ v.0, fill_joined ms ns v.1 w.1);
    } };

    fn number(&mut self, value: u64) {
        self.next = put(self.buffer, self.next, value);
    }
}

// Passes numbers to a sink, one behind the other. (A layer's own call, as `put` is: whoever passes numbers has made sure of their size and of the
// room.)
pub fn pass<S: Sink>(sink: &mut S, values: &[u64])
    requires small { All (λ value. value < 2 ^ 56) values.now }
    requires room { S.takes sink.old values.now }
    ensures { S.passed sink.old values.now sink.new }
{
    for value in values {
        sink.number(*value);
    }
}
