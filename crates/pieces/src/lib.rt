// A phase's arithmetic in code: pieces, counts, budgets. Another kind of phase is a change here and in model; who calls by task and phase only lends
// the table. A function that has a `requires` is called by judges that have proved the ranges once for a whole table: a test for each phase
// would be work that need not be done.
#![tactic(auto)]

pub mod counts;
pub mod phase;
pub mod task;
