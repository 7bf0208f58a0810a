// Which slot a packet is of.
ghost use Rattle.std.specs.Prelude.{◌≡◌};
ghost use Rattle.import_steps.specs.Taking.{known, stale, same_slot, next_slot, new_body, is_resent, fits};

use crate::taking::Import;
use captures::Packet;
use trace_parts::Layout;

fn stale(last: u32, slot: u32) -> bool
    ensures { result ≡ stale last slot }
{
    let late = std::num::wrapping_sub_u32(last, slot);
    (1 <= late) & (late <= 2147483648)
}

impl Import {
    pub(crate) fn same_slot(self, k: Packet) -> bool
        ensures { result ≡ same_slot (known self) k }
    {
        (0 < self.slots) & (k.slot == self.last)
    }

    pub(crate) fn next_slot(self, k: Packet) -> bool
        ensures { result ≡ next_slot (known self) k }
    {
        let more = std::num::wrapping_add_u16(self.slots, 1);
        let next = std::num::wrapping_add_u32(self.last, 1);
        (0 < self.slots) & (trace_parts::slots_sound(self.state.ports, more) & (k.slot == next))
    }

    fn new_body(self, k: Packet) -> bool
        ensures { result ≡ new_body (known self) k }
    {
        !(self.same_slot(k) | self.next_slot(k))
    }

    pub(crate) fn is_resent(self, k: Packet) -> bool
        ensures { result ≡ is_resent (known self) k }
    {
        self.same_slot(k) & words::holds(self.hosts, k.host as usize)
    }

    pub(crate) fn fits(self, k: Packet) -> bool
        ensures { result ≡ fits (known self) k }
    {
        (k.captured == captures::packet_len(self.state.ports))
            & (((k.host as usize) < self.state.ports)
                & (!((0 < self.slots) & stale(self.last, k.slot))
                    & !(self.new_body(k) & (Layout::BODIES <= self.bodies as usize))))
    }
}
