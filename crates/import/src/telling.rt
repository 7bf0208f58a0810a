// What the program says.
use import_steps::Import;
use outside::Streams;
use refusals::Refusal;
use std::io::{Result, Stdout};

pub fn tell_usage(to: Streams) -> Result<()> {
    to.err.write_all(b"import PORTS MODE I J CAPTURE TRACE: the first four are numbers\n")
}

// Why nothing is imported, and by its number.
pub fn decline(to: Streams, capture: &[u8], why: Refusal) -> Result<()> {
    let said = match why {
        Refusal::BadPorts => "ports",
        Refusal::BadOffset => "offsets",
        Refusal::BadLimit => "mode",
        _ => "not such a capture",
    };
    to.tell(capture, format_args!("{} ({said})", why.number()))
}

// The last line.
pub fn tell_end(out: Stdout, known: Import) -> Result<()> {
    let slots = known.state.due;
    let bodies = known.bodies;
    let resent = known.resent;
    println!(out; "{slots} slots in {bodies} bodies, {resent} resent")
}
