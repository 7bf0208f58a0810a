// The check of words over a long slice, by tables.
#![tactic(auto)]

mod check;
mod tables;

pub use check::{ByTables, long_crc};
