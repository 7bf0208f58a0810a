// The bodies of a trace, one after the other.
use outside::{Progress, Streams};
use reading::Trace;
use std::io::{IsTerminal, Read, Result};
use trace_parts::Entry;

// Hands on each body up to the first that is not sound; whether all are, which is what is asked and no failure.
pub(crate) fn play<R: Read, F: FnMut(Entry, &[u8]) -> Result<()>>(
    to: Streams,
    trace: &mut Trace<'_, R>,
    mut each: F,
) -> Result<bool>
    requires { F.IsAlwaysCallable each }
{
    // No lines go there too.
    let progress = Progress {
        err: to.err,
        shown: to.err.is_terminal() & !to.out.is_terminal(),
    };
    let count = trace.head.count;
    let mut buf = outside::large_buffer();
    let mut sound = true;
    // By index: the number is what an entry is asked for by, and is said besides.
    for k in 0..count {
        progress.say(format_args!("bodies read: {k} of {count}"));
        let read = trace.entry(k);
        let Some(body) = trace.next(read, &mut buf) else {
            sound = false;
            break;
        };
        each(read.entry, body)?;
    }
    progress.end();
    Ok(sound)
}
