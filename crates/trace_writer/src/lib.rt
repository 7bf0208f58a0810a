// Writes slot traces: a body of its fields and blocks, contents, and a whole trace of bodies joined.
#![tactic(auto)]

mod listing;
mod sealing;
mod writing;

pub use listing::write_contents;
pub use sealing::{field_bytes, seal_body};
pub use writing::write_trace;
