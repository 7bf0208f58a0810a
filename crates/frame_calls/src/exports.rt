// The frame calls by their C names.
ghost use Rattle.std.specs.Prelude.{◌≡◌};
ghost use Rattle.frames.specs.Width.{narrow};
ghost use Rattle.frames.specs.Config.{config_len, read_config, write_config_number, write_config_output};
ghost use Rattle.frames.specs.Grant.{grant_len, read_grant};
ghost use Rattle.frames.specs.Held.{held_len, read_held, write_held_number, write_held_output};
ghost use Rattle.frame_calls.specs.Shown.{part_number, part_after, held_of5};

// C calls each by its name and is told the number: what they share is `show_part`.
use crate::reading::show_part;
use crate::writing::write_held;
use frames::{Config, Grant, Held, read_config, read_grant, read_held};
use refusals::number_of;

pub fn bellacush_read_config(frame: &[u8], part: &mut [u8]) -> u32
    ensures { (result ≡ part_number config_len (read_config frame.now).number part.old) × (part.new ≡ part_after config_len (read_config frame.now).number frame.now part.old) }
{
    u32::from(number_of(show_part(Config::LEN, read_config(frame), frame, part)))
}

pub fn bellacush_read_grant(frame: &[u8], part: &mut [u8]) -> u32
    ensures { (result ≡ part_number grant_len (read_grant frame.now).number part.old) × (part.new ≡ part_after grant_len (read_grant frame.now).number frame.now part.old) }
{
    u32::from(number_of(show_part(Grant::LEN, read_grant(frame), frame, part)))
}

pub fn bellacush_read_grant3(frame: &[u8], part: &mut [u8]) -> u32
    ensures { (result ≡ part_number (held_len narrow) (read_held narrow frame.now).number part.old) × (part.new ≡ part_after (held_len narrow) (read_held narrow frame.now).number frame.now part.old) }
{
    u32::from(number_of(show_part(Held::LEN, read_held(frame), frame, part)))
}

pub fn bellacush_write_config(req: u16, pre: u16, ben: u16, qen: u16, out: &mut [u8]) -> u32
    ensures { (result ≡ write_config_number out.old) × (out.new ≡ write_config_output (record { req = req; pre = pre; ben = ben; qen = qen }) out.old) }
{
    u32::from(number_of(frames::write_config(Config { req, pre, ben, qen }, out)))
}

pub fn bellacush_write_grant3(
    node: u32,
    val: u32,
    link: u32,
    crc: u32,
    set: u16,
    out: &mut [u8],
) -> u32
    ensures { (result ≡ write_held_number narrow (held_of5 node val link crc set) out.old) × (out.new ≡ write_held_output narrow (held_of5 node val link crc set) out.old) }
{
    u32::from(number_of(write_held(node, val, link, crc, set, out)))
}
