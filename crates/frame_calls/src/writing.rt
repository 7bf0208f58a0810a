// A grant frame written from plain numbers.
ghost use Rattle.std.specs.Prelude.{◌≡◌};
ghost use Rattle.refusals.specs.Numbers.{number_of};
ghost use Rattle.frames.specs.Width.{narrow};
ghost use Rattle.frames.specs.Held.{write_held_number, write_held_output};
ghost use Rattle.frame_calls.specs.Shown.{held_of5};

use frames::Held;
use refusals::Refusal;

pub(crate) fn write_held(
    node: u32,
    val: u32,
    link: u32,
    crc: u32,
    set: u16,
    out: &mut [u8],
) -> Result<(), Refusal>
    ensures { (number_of result ≡ write_held_number narrow (held_of5 node val link crc set) out.old) × (out.new ≡ write_held_output narrow (held_of5 node val link crc set) out.old) }
{
    let Ok(nodeid) = u8::try_from(node) else {
        return Err(Refusal::BadGrantField);
    };
    let held = Held {
        nodeid,
        gntval: val != 0,
        linkerr: link != 0,
        crcerr: crc != 0,
        set,
    };
    frames::write_held(held, out)
}
