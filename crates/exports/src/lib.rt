// What C, Rust and Python call, by the prefix `juwenfo_`: each function is one call of a library crate's function, with that function's equations. An answer that is
// an option or a result there is a struct of numbers here; the comments call a refusal by its name in `refusals::Cause`.
// Kept: a function for each call, and slices and a flag beside each other, since C, Rust and Python call each by its name and its parameters.
#![tactic(auto)]

pub mod interval_sets;
pub mod numbers;
pub mod reading;
pub mod sheets;
