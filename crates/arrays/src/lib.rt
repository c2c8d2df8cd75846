// Lent arrays: reads at any place, and tests of every place. Arrays are lent, never copied.
#![tactic(auto)]

pub mod numbers;
pub mod places;
