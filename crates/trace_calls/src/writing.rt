// What is written of a trace, from plain numbers, as C gives them and takes the answer; firsts and slots apart, likewise.
ghost use Rattle.std.specs.Prelude.{◌≡◌};
ghost use Rattle.frames.specs.Part.{most_ports};
ghost use Rattle.trace_writer.specs.Sealing.{seal_number, seal_output};
ghost use Rattle.trace_writer.specs.Writer.{write_number, write_output};

use refusals::number_of;
use trace_parts::Fields;

// The greatest slot count that a trace has room for.
pub(crate) const MOST_COUNT: u32 = 65535;

pub fn seal_body(
    n: u32,
    slots: u32,
    mode: u32,
    i: u32,
    j: u32,
    blocks: &[u8],
    out: &mut [u8],
) -> u32
    ensures { (result ≡ seal_number most_ports n slots (record { mode = mode; initiator = i; target = j }) blocks.now out.old) × (out.new ≡ seal_output most_ports n slots (record { mode = mode; initiator = i; target = j }) blocks.now out.old) }
{
    if MOST_COUNT < slots {
        return 14;
    }
    let f = Fields {
        mode,
        initiator: i as usize,
        target: j as usize,
    };
    u32::from(number_of(trace_writer::seal_body(n as usize, slots as u16, f, blocks, out)))
}

pub fn write_trace(n: u32, firsts: &[u32], slots: &[u16], bodies: &[u8], out: &mut [u8]) -> u32
    ensures { (result ≡ write_number most_ports n firsts.now slots.now bodies.now out.old) × (out.new ≡ write_output most_ports n firsts.now slots.now bodies.now out.old) }
{
    u32::from(number_of(trace_writer::write_trace(n as usize, firsts, slots, bodies, out)))
}
