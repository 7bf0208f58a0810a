// A whole capture, imported.
ghost use Rattle.std.specs.Prelude.{◌≡◌, ◌++◌, ◌+◌, ◌*◌, ◌≤◌, length, drop};
ghost use Rattle.refusals.specs.Numbers.{number_of, answer_of};
ghost use Rattle.frames.specs.Part.{most_ports};
ghost use Rattle.trace_parts.specs.Layout.{block_len, contents_len};
ghost use Rattle.imports.specs.Cut.{all_bodies};
ghost use Rattle.imports.specs.Import.{firsts_of, counts_of, trace_for, length_for, nothing, cut_answer, cut_output, import_answer, import_output};
ghost use Rattle.imports.specs.Passes.{cut_of};

use crate::answer::Imported;
use crate::capture::Capture;
use captures::ByteOrder;
use frames::Config;
use refusals::Refusal;
use trace_parts::{Layout, contents_len};

// The bytes of a trace of so many bodies, with so many slots in all.
fn trace_len(n: usize, bodies: u16, slots: u32) -> usize
    requires { (n ≤ most_ports) × (slots ≤ 368640) }
    ensures { result ≡ contents_len bodies + (bodies * 5 + slots * block_len n) }
{
    let block = n * Config::LEN;
    let around = Layout::FIELDS + Layout::CHECK;
    contents_len(bodies) + (bodies as usize * around + slots as usize * block)
}

impl Capture<'_> {
    // The contents, and the bodies behind them. Two lists, as the contents' writer and the C form of a trace's writer take them.
    fn write_trace(self, firsts: &[u32], slots: &[u16], out: &mut [u8]) -> Result<(), Refusal>
        requires { ((cut_of self.order self.start self.bytes.now).known.number ≡ 0) × (firsts.now ≡ firsts_of (all_bodies (cut_of self.order self.start self.bytes.now))) × (slots.now ≡ counts_of (all_bodies (cut_of self.order self.start self.bytes.now))) × (length_for self.start.state.ports (all_bodies (cut_of self.order self.start self.bytes.now)) ≤ length out.old) }
        ensures { (number_of result ≡ 0) × (out.new ≡ trace_for self.entry.start.state.ports (all_bodies (cut_of self.entry.order self.entry.start self.entry.bytes.now)) ++ drop (length_for self.entry.start.state.ports (all_bodies (cut_of self.entry.order self.entry.start self.entry.bytes.now))) out.old) }
    {
        let at = contents_len(slots.len() as u16);
        // The records were found to fit contents, and there is room.
        let _ = trace_writer::write_contents(self.start.state.ports, firsts, slots, out);
        self.lay_bodies(&mut out[at..])
    }

    // Its records decide.
    fn import(self, out: &mut [u8]) -> Result<Imported, Refusal>
        ensures { (answer_of nothing result ≡ cut_answer self.entry.start.state.ports (cut_of self.entry.order self.entry.start self.entry.bytes.now) out.old) × (out.new ≡ cut_output self.entry.start.state.ports (cut_of self.entry.order self.entry.start self.entry.bytes.now) out.old) }
    {
        // No heap: lists of the greatest length, of which the bodies' part is handed on.
        let mut firsts = [0u32; Layout::BODIES];
        let mut slots = [0u16; Layout::BODIES];
        let p = self.scan(&mut firsts, &mut slots)?;
        let length = trace_len(p.state.ports, p.bodies, p.state.due);
        if out.len() < length {
            return Err(Refusal::OutTooShort);
        }
        let bodies = p.bodies as usize;
        self.write_trace(&firsts[..bodies], &slots[..bodies], out)?;
        Ok(Imported {
            length,
            resent: p.resent,
        })
    }
}

// The mode as a number, as import_steps takes it. Goes over the capture twice, and writes nothing where it declines.
pub fn import_capture(
    n: usize,
    mode: u32,
    i: usize,
    j: usize,
    capture: &[u8],
    out: &mut [u8],
) -> Result<Imported, Refusal>
    ensures { (answer_of nothing result ≡ import_answer most_ports n mode i j capture.now out.old) × (out.new ≡ import_output most_ports n mode i j capture.now out.old) }
{
    let start = import_steps::start(n, mode, i, j)?;
    let order = captures::read_header(capture)?;
    if (capture.len() - ByteOrder::HEADER) % captures::record_len(n) != 0 {
        return Err(Refusal::BadCapture);
    }
    let whole = Capture {
        order,
        start,
        bytes: capture,
    };
    whole.import(out)
}
