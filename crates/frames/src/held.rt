// The grant frame that tells a host all the targets it holds.
ghost use Rattle.std.specs.Prelude.{◌≡◌, cond, ◌-◌, ◌≤◌, length};
ghost use Rattle.refusals.specs.Numbers.{number_of, answer_of};
ghost use Rattle.frames.specs.Width.{narrow};
ghost use Rattle.frames.specs.Flags.{flags};
ghost use Rattle.frames.specs.Frame.{answered};
ghost use Rattle.frames.specs.Held.{held_len, held_agrees, held_in_form, held_frame, held_of, held_body_in_form, no_held, read_held, write_held_number, write_held_output};

use crate::frame::{open, put};
use refusals::Refusal;
use words::{ByBits, holds, of_two, seal, two_bytes};

// NodeId, gntVal, linkErr and CRCErr, and the targets held.
#[derive(Clone, Copy)]
pub struct Held {
    pub nodeid: u8,
    pub gntval: bool,
    pub linkerr: bool,
    pub crcerr: bool,
    pub set: u16,
}

impl Held {
    const TYPE: u8 = 3;

    pub const LEN: usize = 7;
    // The bits of the set: nodeId is below them.
    pub const BITS: u8 = 16;

    // In both ways: a host that holds nothing has no grant, and the other way round.
    fn agrees(self) -> bool
        ensures { result ≡ held_agrees self }
    {
        self.gntval == (self.set != 0)
    }

    fn in_form(self) -> bool
        ensures { result ≡ held_in_form narrow self }
    {
        (self.nodeid < Held::BITS) & self.agrees()
    }

    // The frame's second byte, of three of the fields: a struct for them would be longer.
    fn flags(self) -> u8
        ensures { result ≡ flags self.gntval self.linkerr self.crcerr }
    {
        u8::from(self.gntval) + 2 * u8::from(self.linkerr) + 4 * u8::from(self.crcerr)
    }

    fn frame(self) -> [u8; Held::LEN]
        ensures { result ≡ held_frame narrow self }
    {
        let set = two_bytes(self.set);
        let mut frame = [Held::TYPE, self.nodeid, self.flags(), set[0], set[1], 0, 0];
        seal::<ByBits>(&mut frame);
        frame
    }

    // No `From`, which could not ask for the body's length.
    #[tactic(auto, using(words::proofs::BytesAt::two_at), unfolding(crate::specs::Held::held_of))]
    fn of(body: &[u8]) -> Held
        requires { length body.now ≡ held_len narrow - 3 }
        ensures { result ≡ held_of narrow body.now }
    {
        let flags = u16::from(body[1]);
        Held {
            nodeid: body[0],
            gntval: holds(flags, 0),
            linkerr: holds(flags, 1),
            crcerr: holds(flags, 2),
            set: of_two(body[2], body[3]),
        }
    }
}

// What a body that is in form tells. No `TryFrom`, which could not ask for the body's length.
#[tactic(auto, unfolding(crate::specs::Held::held_body_in_form))]
fn held_of(body: &[u8]) -> Result<Held, Refusal>
    requires { length body.now ≡ held_len narrow - 3 }
    ensures { answer_of no_held result ≡ answered (cond (held_body_in_form narrow body.now) 0 11) (held_of narrow body.now) no_held }
{
    let g = Held::of(body);
    if (body[1] <= 7) & ((body[0] < Held::BITS) & g.agrees()) {
        return Ok(g);
    }
    Err(Refusal::BadGrantField)
}

pub fn read_held(frame: &[u8]) -> Result<Held, Refusal>
    ensures { answer_of no_held result ≡ read_held narrow frame.now }
{
    held_of(open(frame, Held::LEN, Held::TYPE)?)
}

pub fn write_held(g: Held, out: &mut [u8]) -> Result<(), Refusal>
    ensures { (number_of result ≡ write_held_number narrow g out.old) × (out.new ≡ write_held_output narrow g out.old) }
{
    if g.in_form() {
        return put(&g.frame(), out);
    }
    Err(Refusal::BadGrantField)
}
