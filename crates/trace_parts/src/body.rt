// A body of a trace.
ghost use Rattle.std.specs.Prelude.{◌≡◌, ◌+◌, ◌≤◌, [], length, MatchResult};
ghost use Rattle.laws.specs.Parts.{part};
ghost use Rattle.refusals.specs.Numbers.{number, answer_of};
ghost use Rattle.frames.specs.Part.{most_ports};
ghost use Rattle.trace_parts.specs.Layout.{body_len};
ghost use Rattle.trace_parts.specs.Body.{fields_of, formed, complete, body_sound, no_fields, read_fields, has_block, block_number, block_start, block_part};

use crate::layout::{Layout, block_len, body_len, body_size, most_mode, ports_sound, slots_sound};
use long_check::ByTables;
use refusals::Refusal;
use words::intact;

// Mode, I and J. The mode is the number in the byte, which `formed` judges: of proper form or not, it is told.
#[derive(Clone, Copy, Default)]
pub struct Fields {
    pub mode: u32,
    pub initiator: usize,
    pub target: usize,
}

fn fields_of(body: &[u8]) -> Fields
    requires { 3 ≤ length body.now }
    ensures { result ≡ fields_of body.now }
{
    Fields {
        mode: u32::from(body[0]),
        initiator: usize::from(body[1]),
        target: usize::from(body[2]),
    }
}

// Whether the fields are of proper form, for n ports.
pub fn formed(n: usize, f: Fields) -> bool
    ensures { result ≡ formed n f }
{
    (f.mode as usize <= most_mode(n)) & ((f.initiator < n) & (f.target < n))
}

// The ports, the slot count and the bytes stay apart in complete, body_sound and slot_block, which are total on plain values.
// Whether these are as many bytes as a body of so many slots has, for n ports.
pub fn complete(n: usize, slots: u16, body: &[u8]) -> bool
    ensures { result ≡ complete most_ports n slots body.now }
{
    if ports_sound(n) {
        return slots_sound(n, slots) & (body.len() == body_len(n, slots));
    }
    false
}

// Whether this is a body of so many slots, for n ports.
pub fn body_sound(n: usize, slots: u16, body: &[u8]) -> bool
    ensures { result ≡ body_sound most_ports n slots body.now }
{
    if complete(n, slots, body) {
        return intact::<ByTables>(body) & formed(n, fields_of(body));
    }
    false
}

// Whether such a body stands from byte `at` on.
pub fn sound_from(n: usize, slots: u16, at: usize, s: &[u8]) -> bool
    ensures { result ≡ body_sound most_ports n slots (part at (body_len n slots) s.now) }
{
    let len = body_size(n, slots);
    if s.len() < len {
        return false;
    }
    if s.len() - len < at {
        return false;
    }
    let end = at + len;
    body_sound(n, slots, &s[at..end])
}

// The fields of a body that was found sound: it is not tested again.
pub fn read_fields(n: usize, body: &[u8]) -> Result<Fields, Refusal>
    ensures { answer_of no_fields result ≡ read_fields most_ports n body.now }
{
    if body.len() < Layout::FIELDS {
        return Err(Refusal::BadTrace);
    }
    let fields = fields_of(body);
    if ports_sound(n) & formed(n, fields) {
        return Ok(fields);
    }
    Err(Refusal::BadTrace)
}

fn has_block(n: usize, slots: u16, k: usize, body: &[u8]) -> bool
    ensures { result ≡ has_block most_ports n slots k body.now }
{
    complete(n, slots, body) & (k < slots as usize)
}

// Shows the block of slot k, as that part of the body itself.
pub fn slot_block<'a>(n: usize, slots: u16, k: usize, body: &'a [u8]) -> Result<&'a [u8], Refusal>
    ensures { MatchResult result
        (λ block. (block.now ≡ block_part most_ports n slots k body.now) × (block.ref_ptr ≡ (body.entry.ref_ptr.0, body.entry.ref_ptr.1 + block_start most_ports n slots k body.now)) × (block_number most_ports n slots k body.now ≡ 0))
        (λ why. (number why ≡ block_number most_ports n slots k body.now) × (block_part most_ports n slots k body.now ≡ [])) }
{
    if has_block(n, slots, k, body) {
        let len = block_len(n);
        let start = Layout::FIELDS + k * len;
        let end = start + len;
        return Ok(&body[start..end]);
    }
    Err(Refusal::BadTrace)
}
