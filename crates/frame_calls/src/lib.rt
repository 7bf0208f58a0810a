// The frame calls of the C form. frame_calls_c gives them to C.
#![tactic(auto)]

mod exports;
mod reading;
mod writing;

pub use exports::{
    bellacush_read_config, bellacush_read_grant, bellacush_read_grant3, bellacush_write_config,
    bellacush_write_grant3,
};
