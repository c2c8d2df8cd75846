// Masks of tasks: bit i of a number stands for task i.
ghost use Rattle.std.specs.Prelude.{true, ◌+◌, ◌^◌, ◌<◌};
ghost use Rattle.model.specs.Ranges.{tasks_most};
ghost use Rattle.walk.specs.Masks.{BitPut, FirstOf, OthersOf};

// The mask and task i, which comes after its tasks.
pub fn mark(mask: u32, i: usize) -> u32
    requires { (i < tasks_most) × (mask < 2 ^ i) }
    ensures { BitPut i true mask result × (result < 2 ^ (i + 1)) }
{
    (1 << i) + mask
}

// The first task of a mask that has one.
pub fn first_of(mask: u32) -> usize
    requires { 0 < mask }
    ensures { FirstOf mask result }
{
    mask.trailing_zeros() as usize
}

// Its other tasks.
pub fn others_of(mask: u32) -> u32
    requires { 0 < mask }
    ensures { OthersOf mask result }
{
    mask & (mask - 1)
}
