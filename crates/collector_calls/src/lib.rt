// The C form: what the collectors' backend links besides. collector_calls_c gives it to C.
#![tactic(auto)]

mod ledger_calls;
mod trace_exports;

pub use ledger_calls::{bellacush_asked, bellacush_feed, bellacush_figures};
pub use trace_exports::{
    bellacush_contents, bellacush_entry, bellacush_replay, bellacush_seal_body, bellacush_trace,
    bellacush_trace_body, bellacush_write_trace,
};
