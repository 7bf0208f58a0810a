// What every frame shares: its type before the body, and its check at the end.
ghost use Rattle.std.specs.Prelude.{◌≡◌, ◌-◌, ◌≤◌, length, IfOk};
ghost use Rattle.refusals.specs.Numbers.{number_of};
ghost use Rattle.frames.specs.Frame.{body_of, form_number, room_number, written};

use refusals::Refusal;
use words::{ByBits, intact};

// The bytes between type and check of a frame of that length and that type. Each frame has a reader of one line on it: a trait of
// frames would state the same clauses again, and each frame's definitions as its members, at more length.
#[tactic(auto, unfolding(crate::specs::Frame::form_number))]
pub(crate) fn open(frame: &[u8], len: usize, kind: u8) -> Result<&[u8], Refusal>
    requires { 3 ≤ len }
    ensures { (number_of result ≡ form_number len kind frame.now) × IfOk result (λ body. (body.now ≡ body_of len frame.now) × (length body.now ≡ len - 3)) }
{
    if frame.len() != len {
        return Err(Refusal::BadLen);
    }
    if frame[0] != kind {
        return Err(Refusal::BadType);
    }
    if intact::<ByBits>(frame) {
        return Ok(&frame[1..len - 2]);
    }
    Err(Refusal::BadCheck)
}

// Writes a frame to the front of an output that has room for it.
#[tactic(auto, unfolding(crate::specs::Frame::room_number, crate::specs::Frame::written))]
pub(crate) fn put(frame: &[u8], out: &mut [u8]) -> Result<(), Refusal>
    ensures { (number_of result ≡ room_number (length frame.now) out.old) × (out.new ≡ written (number_of result) (length frame.now) frame.now out.old) }
{
    if out.len() < frame.len() {
        return Err(Refusal::OutTooShort);
    }
    out[..frame.len()].copy_from_slice(frame);
    Ok(())
}
