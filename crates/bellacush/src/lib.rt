// The C form: the slot call and the call that makes a fresh state. bellacush_c gives them to C.
#![tactic(auto)]

mod fresh_call;
mod slot_call;

pub use fresh_call::bellacush_fresh;
pub use slot_call::{bellacush_slot, finish_call};
