// Words as digits and as bytes, the high byte first, and the check of bytes.
#![tactic(auto)]

mod bits;
mod check;
mod numbers;

pub use bits::{holds, minus, with, without};
pub use check::{ByBits, Check, crc, crc_bit, intact, seal};
pub use numbers::{four_bytes, of_four, of_two, two_bytes};
