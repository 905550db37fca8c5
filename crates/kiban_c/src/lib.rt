// The calls that a Rust or C host links: numbers and slices alone, a module for each crate below whose calls it passes on.
#![tactic(auto)]

pub mod builder_calls;
pub mod filter_calls;
pub mod finish_calls;
mod lent;
pub mod lines_calls;
pub mod mixing_calls;
pub mod point_calls;
pub mod sort_calls;
