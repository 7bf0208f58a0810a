// The frame calls, as C calls them: an object of their own, for beside the slot call they would keep a reader from being part of it.
// C has a name for each, so each is one call of the crate below.
#![tactic(auto)]

ghost use Rattle.std.specs.Prelude.{◌≡◌};
ghost use Rattle.frames.specs.Width.{narrow};
ghost use Rattle.frames.specs.Config.{config_len, read_config, write_config_number, write_config_output};
ghost use Rattle.frames.specs.Grant.{grant_len, read_grant};
ghost use Rattle.frames.specs.Held.{held_len, read_held, write_held_number, write_held_output};
ghost use Rattle.frame_calls.specs.Shown.{part_number, part_after, held_of5};

#[unsafe(no_mangle)]
pub extern "C" fn bellacush_read_config(frame: &[u8], part: &mut [u8]) -> u32
    ensures { (result ≡ part_number config_len (read_config frame.now).number part.old) × (part.new ≡ part_after config_len (read_config frame.now).number frame.now part.old) }
{
    frame_calls::bellacush_read_config(frame, part)
}

#[unsafe(no_mangle)]
pub extern "C" fn bellacush_read_grant(frame: &[u8], part: &mut [u8]) -> u32
    ensures { (result ≡ part_number grant_len (read_grant frame.now).number part.old) × (part.new ≡ part_after grant_len (read_grant frame.now).number frame.now part.old) }
{
    frame_calls::bellacush_read_grant(frame, part)
}

#[unsafe(no_mangle)]
pub extern "C" fn bellacush_read_grant3(frame: &[u8], part: &mut [u8]) -> u32
    ensures { (result ≡ part_number (held_len narrow) (read_held narrow frame.now).number part.old) × (part.new ≡ part_after (held_len narrow) (read_held narrow frame.now).number frame.now part.old) }
{
    frame_calls::bellacush_read_grant3(frame, part)
}

#[unsafe(no_mangle)]
pub extern "C" fn bellacush_write_config(
    req: u16,
    pre: u16,
    ben: u16,
    qen: u16,
    out: &mut [u8],
) -> u32
    ensures { (result ≡ write_config_number out.old) × (out.new ≡ write_config_output (record { req = req; pre = pre; ben = ben; qen = qen }) out.old) }
{
    frame_calls::bellacush_write_config(req, pre, ben, qen, out)
}

#[unsafe(no_mangle)]
pub extern "C" fn bellacush_write_grant3(
    node: u32,
    val: u32,
    link: u32,
    crc: u32,
    set: u16,
    out: &mut [u8],
) -> u32
    ensures { (result ≡ write_held_number narrow (held_of5 node val link crc set) out.old) × (out.new ≡ write_held_output narrow (held_of5 node val link crc set) out.old) }
{
    frame_calls::bellacush_write_grant3(node, val, link, crc, set, out)
}
