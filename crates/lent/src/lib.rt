// What calls promise of something lent, which they fill or write to: definitions and laws, and the words that are filled.
#![tactic(auto)]

mod filling;

pub use filling::fill;
