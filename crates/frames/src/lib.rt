// The frames of document 01: their readers and writers, and a host's part of a slot block.
#![tactic(auto)]

mod config;
mod frame;
mod grant;
mod held;
mod part;

pub use config::{Config, read_config, write_config};
pub use grant::{Grant, read_grant};
pub use held::{Held, read_held, write_held};
pub use part::{Ports, host_frame};
