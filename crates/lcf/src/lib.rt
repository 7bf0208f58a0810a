// The Least Choice First scheduler on tables: rules 3 to 7 of document 01.
#![tactic(auto)]

mod advancing;
mod slot;

pub use advancing::advance;
pub use slot::{finish_due, slot_on_tables};
