// The trace calls of the C form, over plain numbers and slices; the C names stand with the other calls.
#![tactic(auto)]

mod reading;
mod replaying;
mod writing;

pub use reading::{show_body, show_contents, show_entry, show_trace};
pub use replaying::replay_body;
pub use writing::{seal_body, write_trace};
