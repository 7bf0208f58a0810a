// The two passes of the import over a file: its records taken, and their bodies written.
#![tactic(auto)]

mod laying;
mod records;

pub use laying::lay;
pub use records::{Source, changed, scan};
