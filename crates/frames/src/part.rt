// A host's frame in a slot block.
ghost use Rattle.std.specs.Prelude.{◌≡◌, ◌+◌};
ghost use Rattle.frames.specs.Part.{most_ports, frame_len, host_number, host_start, host_part};

use crate::config::Config;

#[derive(Clone, Copy)]
pub struct Ports {}

impl Ports {
    // The greatest port count.
    pub const MOST: usize = 16;
}

// Shows that part of the block itself. Document 01 has this form, with the number lent: an `Option` would not say where an empty
// part lies, as the contract does.
#[tactic(auto, unfolding(crate::specs::Part::host_number))]
pub fn host_frame<'a>(n: usize, h: usize, block: &'a [u8], number: &mut u8) -> &'a [u8]
    ensures { (result.now ≡ host_part most_ports (frame_len n) n h block.now) × (result.ref_ptr ≡ (block.entry.ref_ptr.0, block.entry.ref_ptr.1 + host_start most_ports (frame_len n) n h block.now)) × (number.new ≡ host_number most_ports (frame_len n) n h block.now) }
{
    if n < 1 || Ports::MOST < n {
        *number = 1;
        return &block[..0];
    }
    if block.len() != n * Config::LEN {
        *number = 6;
        return &block[..0];
    }
    if n <= h {
        *number = 11;
        return &block[..0];
    }
    *number = 0;
    let start = h * Config::LEN;
    let end = start + Config::LEN;
    &block[start..end]
}
