// What is known of the records taken, and a record more.
ghost use Rattle.std.specs.Prelude.{◌≡◌};
ghost use Rattle.refusals.specs.Numbers.{number_of};
ghost use Rattle.frames.specs.Part.{most_ports};
ghost use Rattle.captures.specs.Capture.{low_first};
ghost use Rattle.import_steps.specs.Taking.{known, known_after, at_start, start_number, started, taken, ends_body};
ghost use Rattle.import_steps.specs.Laying.{fields_now};

use crate::step::Step;
use captures::ByteOrder;
use ports::{Initiator, Set, State, Target, wrong_ports};
use refusals::Refusal;
use trace_parts::Fields;

// The mode of every body, by the number in its first byte, as in Fields; the state that the slots left, whose due slot counts them; the
// slot of the packet before, and the hosts whose frames for it are there; of the open body its first slot and its slots; the bodies
// begun, and the frames resent.
#[derive(Clone, Copy)]
pub struct Import {
    pub mode: u32,
    pub state: State,
    pub last: u32,
    pub hosts: Set,
    pub first: u32,
    pub slots: u16,
    pub bodies: u16,
    pub resent: u32,
}

impl Import {
    // Those of a body that starts now.
    pub(crate) fn fields(self) -> Fields
        ensures { result ≡ fields_now (known self) }
    {
        Fields {
            mode: self.mode,
            initiator: self.state.initiator.0,
            target: self.state.target.0,
        }
    }
}

// The numbers 1, 2 and 5.
pub(crate) fn check_start(n: usize, f: Fields) -> Result<(), Refusal>
    ensures { number_of result ≡ start_number most_ports n f.mode f.initiator f.target }
{
    if wrong_ports(n) {
        return Err(Refusal::BadPorts);
    }
    if (n <= f.initiator) | (n <= f.target) {
        return Err(Refusal::BadOffset);
    }
    if trace_parts::formed(n, f) {
        return Ok(());
    }
    Err(Refusal::BadLimit)
}

// Before the first record. It answers 5 for a number that is no mode, so it takes a number.
pub fn start(n: usize, mode: u32, i: usize, j: usize) -> Result<Import, Refusal>
    ensures { known_after (at_start n mode i j) result ≡ started most_ports n mode i j }
{
    let import = Import {
        mode,
        state: State {
            ports: n,
            initiator: Initiator(i),
            target: Target(j),
            due: 0,
            owners: 0,
        },
        last: 0,
        hosts: 0,
        first: 0,
        slots: 0,
        bodies: 0,
        resent: 0,
    };
    check_start(n, import.fields())?;
    Ok(import)
}

// A record more; its bytes are those of its header and its packet.
// In line, since it is asked once a record and pass: a call of its own, with an `Import` in and out by memory, made `import` take longer.
#[inline(always)]
pub fn take_record(order: ByteOrder, p: Import, bytes: &[u8]) -> Result<Import, Refusal>
    ensures { known_after (known p) result ≡ taken most_ports (low_first order) (known p) bytes.now }
{
    Ok(Step::of(order, p, bytes)?.took())
}

// Whether the body that was open before a record is complete after it.
pub fn ends_body(p: Import, q: Import) -> bool
    ensures { result ≡ ends_body (known p) (known q) }
{
    (0 < p.slots) & (q.bodies != p.bodies)
}
