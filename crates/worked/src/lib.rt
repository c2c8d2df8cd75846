// A theory: the worked tables of document 01. The list is in specs/, what it says of the judge's call in proofs/. It has no function of its own.
#![tactic(auto)]

pub use finite::version;
