// The two passes over a damaged trace, body by body: the first judges, the second copies what is kept.
#![tactic(auto)]

use body_fates::{Fate, Judged};
use reading::Trace;
use std::io::{Error, ErrorKind, Read, Seek, Write};
use trace_parts::Layout;

// Why the new trace is not whole: it cannot be written, or a body that was judged sound is so no longer.
#[derive(Drop)]
pub enum Failure {
    Unwritten(Error),
    Changed,
}

impl From<Error> for Failure {
    fn from(error: Error) -> Failure {
        Failure::Unwritten(error)
    }
}

fn unwritten() -> Failure {
    Failure::Unwritten(Error::from(ErrorKind::InvalidData))
}

// Judges body k by what the file has of it, which is then in the bytes lent.
fn judge_body<R: Read + Seek>(
    trace: &mut Trace<'_, R>,
    k: usize,
    judged: &mut Judged,
    buf: &mut [u8],
) {
    let read = trace.entry(k);
    let entry = read.entry;
    let body = trace.body(read, buf);
    judged.judge(trace.head.ports, entry.first, entry.slots, body);
}

// The first pass.
pub fn judge_all<R: Read + Seek>(trace: &mut Trace<'_, R>) -> Judged {
    let mut buf = outside::large_buffer();
    let mut judged = Judged::none();
    // By index: the number is what an entry is asked for by.
    for k in 0..trace.head.count {
        judge_body(trace, k, &mut judged, &mut buf);
    }
    judged
}

// The new contents.
fn put_contents<W: Write>(to: &mut W, n: usize, judged: Judged) -> Result<(), Failure> {
    let kept = judged.kept;
    if Layout::BODIES < kept {
        return Err(unwritten());
    }
    let mut buf = outside::large_buffer();
    let (firsts, slots) = (&judged.firsts[..kept], &judged.slots[..kept]);
    if trace_writer::write_contents(n, firsts, slots, &mut buf).is_err() {
        return Err(unwritten());
    }
    let size = trace_parts::contents_len(kept as u16);
    Ok(to.write_all(&buf[..size])?)
}

// Copies body k if it is kept, and is still sound.
fn copy_body<R: Read + Seek, W: Write>(
    trace: &mut Trace<'_, R>,
    to: &mut W,
    k: usize,
    judged: Judged,
    buf: &mut [u8],
) -> Result<(), Failure> {
    if judged.fate_of(k) != Fate::Kept {
        return Ok(());
    }
    let mut again = Judged::none();
    judge_body(trace, k, &mut again, buf);
    if again.fate_of(0) != Fate::Kept {
        return Err(Failure::Changed);
    }
    let len = trace.entry(k).len as usize;
    if buf.len() < len {
        return Err(unwritten());
    }
    Ok(to.write_all(&buf[..len])?)
}

// The second pass: the new contents, and behind them each body that is kept.
pub fn put_trace<R: Read + Seek, W: Write>(
    trace: &mut Trace<'_, R>,
    to: &mut W,
    judged: Judged,
) -> Result<(), Failure> {
    put_contents(to, trace.head.ports, judged)?;
    let mut buf = outside::large_buffer();
    // By index: the number is what an entry and a fate are asked for by.
    for k in 0..trace.head.count {
        copy_body(trace, to, k, judged, &mut buf)?;
    }
    Ok(())
}
