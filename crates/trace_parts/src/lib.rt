// The parts of a slot trace, each by itself: its measures, its contents, and a body.
#![tactic(auto)]

mod body;
mod contents;
mod layout;

pub use body::{Fields, body_sound, complete, formed, read_fields, slot_block, sound_from};
pub use contents::{Described, Entry, Head, contents_head, contents_size, file_head, read_entry};
pub use layout::{Layout, body_size, contents_len, ports_sound, slots_sound};
