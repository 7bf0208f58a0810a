// A trace, written of its parts.
ghost use Rattle.std.specs.Prelude.{◌≡◌, ◌&&◌, eqb, length};
ghost use Rattle.laws.specs.Steps.{every};
ghost use Rattle.refusals.specs.Numbers.{number_of};
ghost use Rattle.frames.specs.Part.{most_ports};
ghost use Rattle.trace_writer.specs.Writer.{start_of, joined_sound, write_number, write_output};

use crate::listing::Listing;
use refusals::Refusal;

impl<'a> Listing<'a> {
    // Whether the bodies joined are sound, each for its slot count, and end where the last of them does.
    fn bodies_sound(self, bodies: &[u8]) -> bool
        ensures { result ≡ (eqb (start_of self.entry.ports self.entry.slots.now (length self.entry.slots.now)) (length bodies.now) && every (joined_sound most_ports self.entry.ports self.entry.slots.now bodies.now) (length self.entry.slots.now)) }
    {
        let mut at: usize = 0;
        let mut sound = true;
        for &count in self.slots {
            sound = sound & trace_parts::sound_from(self.ports, count, at, bodies);
            at = at + trace_parts::body_size(self.ports, count);
        }
        (at == bodies.len()) & sound
    }
}

pub fn write_trace(
    n: usize,
    firsts: &[u32],
    slots: &[u16],
    bodies: &[u8],
    out: &mut [u8],
) -> Result<(), Refusal>
    ensures { (number_of result ≡ write_number most_ports n firsts.now slots.now bodies.now out.old) × (out.new ≡ write_output most_ports n firsts.now slots.now bodies.now out.old) }
{
    let list = Listing::of(n, firsts, slots)?;
    if !list.bodies_sound(bodies) {
        return Err(Refusal::BadTrace);
    }
    let at = list.len();
    if out.len() < at + bodies.len() {
        return Err(Refusal::OutTooShort);
    }
    let (contents, rest) = out.split_at_mut(at);
    list.put(contents);
    rest[..bodies.len()].copy_from_slice(bodies);
    Ok(())
}
