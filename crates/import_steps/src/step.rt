// A record that is taken.
ghost use Rattle.std.specs.Prelude.{◌≡◌, ◌≤◌, length};
ghost use Rattle.std.specs.Result.{IfOk};
ghost use Rattle.refusals.specs.Numbers.{number_of};
ghost use Rattle.frames.specs.Part.{most_ports};
ghost use Rattle.trace_parts.specs.Body.{block_at};
ghost use Rattle.captures.specs.Capture.{low_first, packet_in, frame_of};
ghost use Rattle.import_steps.specs.Taking.{known, heard, slot_begun, took, step_number};
ghost use Rattle.import_steps.specs.Laying.{last_block, opened, placed};

use crate::taking::{Import, check_start};
use captures::{ByteOrder, Packet};
use frames::Config;
use ports::Orderly;
use refusals::Refusal;
use trace_parts::{Layout, body_size};

// What was known before it, its packet and its bytes.
#[derive(Clone, Copy)]
pub(crate) struct Step<'a> {
    pub before: Import,
    pub packet: Packet,
    pub bytes: &'a [u8],
    ghost taken: { step_number most_ports (known before) (length bytes.now) packet ≡ 0 },
}

impl<'a> Step<'a> {
    // Of the bytes of a record's header and its packet.
    pub fn of(order: ByteOrder, before: Import, bytes: &'a [u8]) -> Result<Step<'a>, Refusal>
        ensures { (number_of result ≡ step_number most_ports (known before) (length bytes.now) (packet_in (low_first order) bytes.now)) × IfOk result (λ s. (s.before ≡ before) × (s.packet ≡ packet_in (low_first order) bytes.now) × (s.bytes.now ≡ bytes.now)) }
    {
        let n = before.state.ports;
        let packet = captures::read_packet(order, bytes);
        check_start(n, before.fields())?;
        if (bytes.len() == captures::record_len(n)) & before.fits(packet) {
            return Ok(Step {
                before,
                packet,
                bytes,
            });
        }
        Err(Refusal::BadCapture)
    }

    // Another frame of the slot.
    fn heard(self) -> Import
        ensures { known result ≡ heard (known self.entry.before) self.entry.packet }
    {
        let p = self.before;
        let host = self.packet.host;
        if words::holds(p.hosts, host as usize) {
            return Import {
                resent: std::num::wrapping_add_u32(p.resent, 1),
                ..p
            };
        }
        Import {
            hosts: p.hosts | (1 << host),
            ..p
        }
    }

    // The first frame of a slot.
    fn slot_begun(self, first: u32, slots: u16, bodies: u16) -> Import
        ensures { known result ≡ slot_begun (known self.entry.before) self.entry.packet first slots bodies }
    {
        Import {
            state: lcf::advance(Orderly {
                state: self.before.state,
            }),
            last: self.packet.slot,
            hosts: 1 << self.packet.host,
            first,
            slots,
            bodies,
            ..self.before
        }
    }

    // What is known after it.
    pub fn took(self) -> Import
        ensures { known result ≡ took (known self.entry.before) self.entry.packet }
    {
        let p = self.before;
        if p.same_slot(self.packet) {
            return self.heard();
        }
        if p.next_slot(self.packet) {
            return self.slot_begun(p.first, p.slots + 1, p.bodies);
        }
        self.slot_begun(self.packet.slot, 1, p.bodies + 1)
    }
}
