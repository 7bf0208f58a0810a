// The grant frame of type 2, which is read and no longer written.
ghost use Rattle.std.specs.Prelude.{◌≡◌, ◌-◌, length, cond};
ghost use Rattle.refusals.specs.Numbers.{answer_of};
ghost use Rattle.frames.specs.Frame.{answered};
ghost use Rattle.frames.specs.Grant.{grant_len, agrees, grant_of, body_in_form, no_grant, read_grant};

use crate::frame::open;
use refusals::Refusal;
use words::holds;

// Document 01's nodeId, gnt, gntVal, linkErr and CRCErr.
#[derive(Clone, Copy)]
pub struct Grant {
    pub nodeid: u8,
    pub gnt: u8,
    pub gntval: bool,
    pub linkerr: bool,
    pub crcerr: bool,
}

impl Grant {
    const TYPE: u8 = 2;

    pub const LEN: usize = 5;

    // In one way only: the number 0 may be granted.
    fn agrees(self) -> bool
        ensures { result ≡ agrees self }
    {
        self.gntval | (self.gnt == 0)
    }

    // No `From`, which could not ask for the body's length.
    #[tactic(auto, unfolding(crate::specs::Grant::grant_of))]
    fn of(body: &[u8]) -> Grant
        requires { length body.now ≡ grant_len - 3 }
        ensures { result ≡ grant_of body.now }
    {
        let numbers = body[0];
        let flags = u16::from(body[1]);
        Grant {
            nodeid: numbers / 16,
            gnt: numbers % 16,
            gntval: holds(flags, 0),
            linkerr: holds(flags, 1),
            crcerr: holds(flags, 2),
        }
    }
}

// A grant of a body that is in form. No `TryFrom`, which could not ask for the body's length.
#[tactic(auto, unfolding(crate::specs::Grant::body_in_form))]
fn grant_of(body: &[u8]) -> Result<Grant, Refusal>
    requires { length body.now ≡ grant_len - 3 }
    ensures { answer_of no_grant result ≡ answered (cond (body_in_form body.now) 0 11) (grant_of body.now) no_grant }
{
    let g = Grant::of(body);
    if (body[1] <= 7) & g.agrees() {
        return Ok(g);
    }
    Err(Refusal::BadGrantField)
}

pub fn read_grant(frame: &[u8]) -> Result<Grant, Refusal>
    ensures { answer_of no_grant result ≡ read_grant frame.now }
{
    grant_of(open(frame, Grant::LEN, Grant::TYPE)?)
}
