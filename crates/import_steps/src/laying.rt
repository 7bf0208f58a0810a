// The open body, in lent bytes.
ghost use Rattle.std.specs.Prelude.{◌≡◌, ◌≤◌, length};
ghost use Rattle.refusals.specs.Numbers.{number_of};
ghost use Rattle.frames.specs.Part.{most_ports};
ghost use Rattle.trace_parts.specs.Body.{block_at};
ghost use Rattle.captures.specs.Capture.{low_first, frame_of};
ghost use Rattle.import_steps.specs.Taking.{known, took};
ghost use Rattle.import_steps.specs.Laying.{last_block, opened, placed, lay_number, lay_output, is_open, close_number, close_output};

use crate::step::Step;
use crate::taking::Import;
use captures::{ByteOrder, Packet};
use frames::Config;
use long_check::ByTables;
use refusals::Refusal;
use trace_parts::{Layout, body_size};
use words::seal;

impl Step<'_> {
    // Where the last block of the open body ends.
    fn end(self) -> usize
        ensures { (result ≡ block_at self.entry.before.state.ports (took (known self.entry.before) self.entry.packet).slots) × (result ≤ 268435456) }
    {
        body_size(self.before.state.ports, self.took().slots) - Layout::CHECK
    }

    // And where it starts.
    fn last_block(self) -> usize
        ensures { result ≡ last_block self.entry.before.state.ports (took (known self.entry.before) self.entry.packet).slots }
    {
        self.end() - self.before.state.ports * Config::LEN
    }

    // The body with a block for the packet's slot.
    fn open_block(self, body: &mut [u8])
        requires { block_at self.before.state.ports (took (known self.before) self.packet).slots ≤ length body.old }
        ensures { body.new ≡ opened (known self.entry.before) self.entry.packet body.old }
    {
        let p = self.before;
        if p.same_slot(self.packet) {
            return;
        }
        if !p.next_slot(self.packet) {
            body[..Layout::FIELDS].copy_from_slice(&trace_writer::field_bytes(p.fields()));
        }
        body[self.last_block()..self.end()].fill(0);
    }

    // And the packet's frame in it, unless it is resent.
    fn place(self, body: &mut [u8])
        requires { block_at self.before.state.ports (took (known self.before) self.packet).slots ≤ length body.old }
        ensures { body.new ≡ placed (known self.entry.before) self.entry.packet (frame_of self.entry.before.state.ports self.entry.bytes.now) body.old }
    {
        if self.before.is_resent(self.packet) {
            return;
        }
        self.open_block(body);
        let at = self.last_block() + self.packet.host as usize * Config::LEN;
        body[at..at + Config::LEN].copy_from_slice(&self.bytes[Packet::FRAME..]);
    }
}

// Lays the frame of a record into the open body, which starts with the bytes; of a body that ends with the record all is to be taken away
// before.
pub fn lay_record(order: ByteOrder, p: Import, bytes: &[u8], body: &mut [u8]) -> Result<(), Refusal>
    ensures { (number_of result ≡ lay_number most_ports (low_first order) (known p) bytes.now body.old) × (body.new ≡ lay_output most_ports (low_first order) (known p) bytes.now body.old) }
{
    let step = Step::of(order, p, bytes)?;
    if body.len() < step.end() {
        return Err(Refusal::OutTooShort);
    }
    step.place(body);
    Ok(())
}

impl Import {
    fn is_open(self) -> bool
        ensures { result ≡ is_open most_ports (known self) }
    {
        trace_parts::ports_sound(self.state.ports)
            & trace_parts::slots_sound(self.state.ports, self.slots)
    }
}

// Puts the check behind the open body.
pub fn close_body(p: Import, body: &mut [u8]) -> Result<(), Refusal>
    ensures { (number_of result ≡ close_number most_ports (known p) body.old) × (body.new ≡ close_output most_ports (known p) body.old) }
{
    if !p.is_open() {
        return Err(Refusal::BadTrace);
    }
    let len = body_size(p.state.ports, p.slots);
    if body.len() < len {
        return Err(Refusal::OutTooShort);
    }
    seal::<ByTables>(&mut body[..len]);
    Ok(())
}
