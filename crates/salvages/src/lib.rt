// Damaged traces, salvaged: a new trace of just the bodies that are sound.
#![tactic(auto)]

mod file;
mod putting;
mod whole;

pub use whole::{Salvaged, salvage};
