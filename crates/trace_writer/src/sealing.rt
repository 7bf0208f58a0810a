// A body, sealed of its fields and its blocks.
ghost use Rattle.std.specs.Prelude.{◌≡◌, ◌+◌, length};
ghost use Rattle.refusals.specs.Numbers.{number_of};
ghost use Rattle.frames.specs.Part.{most_ports};
ghost use Rattle.trace_writer.specs.Sealing.{field_bytes, body_of, body_fits, seal_number, seal_output};

use long_check::ByTables;
use refusals::Refusal;
use trace_parts::{Fields, Layout, body_size};
use words::seal;

// The bytes that a body starts with: the low one of each, which no conversion of the library takes.
pub fn field_bytes(f: Fields) -> [u8; Layout::FIELDS]
    ensures { result ≡ field_bytes f }
{
    [
        (f.mode % 256) as u8,
        (f.initiator % 256) as u8,
        (f.target % 256) as u8,
    ]
}

fn put_body(f: Fields, blocks: &[u8], out: &mut [u8])
    requires { length out.old ≡ 3 + length blocks.now + 2 }
    ensures { out.new ≡ body_of f blocks.now }
{
    let (fields, rest) = out.split_at_mut(Layout::FIELDS);
    fields.copy_from_slice(&field_bytes(f));
    rest[..blocks.len()].copy_from_slice(blocks);
    seal::<ByTables>(out);
}

fn body_fits(n: usize, slots: u16, f: Fields, blocks: &[u8]) -> bool
    ensures { result ≡ body_fits most_ports n slots f blocks.now }
{
    if trace_parts::ports_sound(n) {
        let len = body_size(n, slots) - Layout::FIELDS - Layout::CHECK;
        return trace_parts::slots_sound(n, slots)
            & ((blocks.len() == len) & trace_parts::formed(n, f));
    }
    false
}

pub fn seal_body(
    n: usize,
    slots: u16,
    f: Fields,
    blocks: &[u8],
    out: &mut [u8],
) -> Result<(), Refusal>
    ensures { (number_of result ≡ seal_number most_ports n slots f blocks.now out.old) × (out.new ≡ seal_output most_ports n slots f blocks.now out.old) }
{
    if body_fits(n, slots, f, blocks) {
        let len = body_size(n, slots);
        if out.len() < len {
            return Err(Refusal::OutTooShort);
        }
        put_body(f, blocks, &mut out[..len]);
        return Ok(());
    }
    Err(Refusal::BadTrace)
}
