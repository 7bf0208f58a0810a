// Replays the trace that the argument names, or standard input, and prints a line for each slot.
#![tactic(auto)]

mod bodies;
mod lines_out;

use bodies::play;
use lines_out::Lines;
use outside::Streams;
use reading::Trace;
use std::io::{Read, Result, Seek};

fn no_trace(to: Streams, name: &[u8]) -> Result<()> {
    to.tell(name, "14 (not a trace)")
}

// Goes through the file once; whether it is a trace, which is what is asked and no failure. The bodies before a fault are printed.
fn prints<R: Read>(to: Streams, file: &mut R) -> Result<bool> {
    let mut buf = outside::large_buffer();
    let Some(mut trace) = Trace::read(file, &mut buf) else {
        return Ok(false);
    };
    let n = trace.head.ports;
    let mut out = outside::large_buffer();
    let mut lines = Lines::new(to, &mut out);
    let sound = play(to, &mut trace, |entry, body| lines.put_body(n, entry, body))?;
    lines.flush()?;
    Ok(sound && trace.at_end())
}

// The same, and prints nothing.
fn tests<R: Read>(to: Streams, file: &mut R) -> Result<bool> {
    let mut buf = outside::large_buffer();
    let Some(mut trace) = Trace::read(file, &mut buf) else {
        return Ok(false);
    };
    Ok(play(to, &mut trace, |_, _| Ok(()))? && trace.at_end())
}

fn replay_once<R: Read>(to: Streams, file: &mut R, name: &[u8]) -> Result<()> {
    if prints(to, file)? {
        return Ok(());
    }
    no_trace(to, name)
}

// Nothing is printed of a file that is no trace: it is read twice.
fn replay_file<R: Read + Seek>(to: Streams, file: &mut R, name: &[u8]) -> Result<()> {
    if !tests(to, file)? {
        return no_trace(to, name);
    }
    match file.rewind() {
        Ok(()) => replay_once(to, file, name),
        Err(error) => to.fail(name, error),
    }
}

fn main(rt: HostRuntime) -> Result<()> {
    let to = Streams {
        out: rt.stdout(),
        err: rt.stderr(),
    };
    if !outside::has_word(&rt, 1) {
        return replay_once(to, &mut rt.stdin(), b"standard input");
    }
    let mut path = outside::buffer();
    let name = outside::word(&rt, 1, &mut path).unwrap_or(b"");
    match outside::open(&rt, name) {
        Ok(mut file) => replay_file(to, &mut file, name),
        Err(error) => to.fail(name, error),
    }
}
