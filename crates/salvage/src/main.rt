// Salvages the damaged trace that the first argument names: its sound bodies become a new trace, which the second names, and a line
// is printed for each body dropped. The file is read body by body, once to judge and once to copy.
#![tactic(auto)]

mod new_trace;

use body_fates::Judged;
use lines::Text;
use new_trace::NewTrace;
use outside::Streams;
use reading::Trace;
use std::io::{Read, Result, Seek};
use std::rt::Files;

fn print_dropped(to: Streams, contents: &[u8], judged: Judged) -> Result<()> {
    let mut bytes = outside::large_buffer();
    let mut text = Text {
        bytes: &mut bytes,
        len: 0,
    };
    salvage_lines::put_lines(&mut text, contents, judged);
    to.print(text.written())?;
    Ok(())
}

fn salvage<R: Files, S: Read + Seek>(
    files: &R,
    to: Streams,
    file: &mut S,
    from: &[u8],
    new: &[u8],
) -> Result<()> {
    let mut buf = outside::large_buffer();
    let Some(mut trace) = Trace::read(file, &mut buf) else {
        return to.tell(from, "14 (contents damaged)");
    };
    let judged = salvage_passes::judge_all(&mut trace);
    print_dropped(to, trace.contents, judged)?;
    // The name under which the new trace is written, beside its own; no path where both are too long.
    let mut bytes = outside::buffer();
    let mut part = Text {
        bytes: &mut bytes,
        len: 0,
    };
    part.put_text(new);
    part.put_text(b".part");
    let new_trace = NewTrace {
        files,
        to,
        from,
        name: new,
        part: part.written(),
    };
    new_trace.save(&mut trace, judged)
}

// The file is read from where its entries say, so it has to be one in which that is possible.
fn open_and_salvage<R: Files>(files: &R, to: Streams, from: &[u8], new: &[u8]) -> Result<()> {
    let mut file = match outside::open(files, from) {
        Ok(file) => file,
        Err(error) => return to.fail(from, error),
    };
    match file.rewind() {
        Ok(()) => salvage(files, to, &mut file, from, new),
        Err(error) => to.fail(from, error),
    }
}

fn main(rt: HostRuntime) -> Result<()> {
    let to = Streams {
        out: rt.stdout(),
        err: rt.stderr(),
    };
    let mut first = outside::buffer();
    let from = outside::word(&rt, 1, &mut first).unwrap_or(b"");
    let mut second = outside::buffer();
    let new = outside::word(&rt, 2, &mut second).unwrap_or(b"");
    // No name, or one that is too long for a path.
    if !outside::has_word(&rt, 2) | outside::has_word(&rt, 3) | new.is_empty() {
        return to.err.write_all(b"usage: salvage DAMAGED NEW\n");
    }
    open_and_salvage(&rt, to, from, new)
}
