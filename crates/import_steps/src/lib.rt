// The import of a capture, a record at a time: what is known of the records taken goes by value, the open body is lent.
#![tactic(auto)]

mod laying;
mod listing;
mod slots;
mod step;
mod taking;

pub use laying::{close_body, lay_record};
pub use listing::note_body;
pub use taking::{Import, ends_body, start, take_record};
