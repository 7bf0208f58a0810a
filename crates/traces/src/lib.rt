// Slot traces: one file of sampled slots, with its contents in front.
#![tactic(auto)]

mod trace;

pub use trace::{trace_body, trace_entry, trace_head};
