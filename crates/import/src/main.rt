// Makes a trace of a packet capture: import PORTS MODE I J CAPTURE TRACE. The capture is read twice, piece by piece: first to know the bodies,
// whose contents stand in front of a trace, then to lay them. The library's steps take the records and lay them.
#![tactic(auto)]

mod importing;
mod telling;
mod typed;

use importing::Importing;
use outside::Streams;
use std::io::Result;
use telling::{decline, tell_usage};
use typed::number_at;

fn main(rt: HostRuntime) -> Result<()> {
    let to = Streams {
        out: rt.stdout(),
        err: rt.stderr(),
    };
    if !outside::has_word(&rt, 6) | outside::has_word(&rt, 7) {
        return tell_usage(to);
    }
    let typed = (
        number_at(&rt, 1),
        number_at(&rt, 2),
        number_at(&rt, 3),
        number_at(&rt, 4),
    );
    let (Some(n), Some(mode), Some(i), Some(j)) = typed else {
        return tell_usage(to);
    };
    let mut first = outside::buffer();
    let mut second = outside::buffer();
    let capture = outside::word(&rt, 5, &mut first).unwrap_or(b"");
    let trace = outside::word(&rt, 6, &mut second).unwrap_or(b"");
    let start = match import_steps::start(n as usize, mode, i as usize, j as usize) {
        Ok(start) => start,
        Err(why) => return decline(to, capture, why),
    };
    let importing = Importing {
        files: &rt,
        to,
        start,
        capture,
        trace,
    };
    importing.run()
}
