// A whole trace, and its bodies.
ghost use Rattle.std.specs.Prelude.{◌≡◌, true, ◌+◌, ◌≤◌, ◌<◌, [], length, MatchResult};
ghost use Rattle.laws.specs.Steps.{every};
ghost use Rattle.refusals.specs.Numbers.{number, answer_of};
ghost use Rattle.frames.specs.Part.{most_ports};
ghost use Rattle.trace_parts.specs.Contents.{ports_of, count_of, contents_fit, no_head, no_description};
ghost use Rattle.traces.specs.Trace.{sound_at, trace_head, trace_entry, body_number, body_start, body_part};

use refusals::Refusal;
use trace_parts::{Described, Head};

// Whether body k is sound, in a file that its contents fit.
fn sound_at(n: usize, s: &[u8], k: usize) -> bool
    requires { (contents_fit most_ports (length s.now) s.now ≡ true) × (n ≡ ports_of s.now) × (k < count_of s.now) }
    ensures { result ≡ sound_at most_ports s.now k }
{
    let entry = trace_parts::read_entry(s, k).unwrap_or_default().entry;
    trace_parts::sound_from(n, entry.slots, entry.offset as usize, s)
}

#[tactic(auto, using(laws::proofs::Every::every_none, laws::proofs::Every::every_again, laws::proofs::Every::every_done))]
fn bodies_sound(n: usize, count: usize, s: &[u8]) -> bool
    requires { (contents_fit most_ports (length s.now) s.now ≡ true) × (n ≡ ports_of s.now) × (count ≤ count_of s.now) }
    ensures { result ≡ every (sound_at most_ports s.now) count }
{
    let mut sound = true;
    // By number: body k is read of the file by its number.
    for k in 0..count {
        sound = sound & sound_at(n, s, k);
    }
    sound
}

// Ports and body count, if the file is a trace.
pub fn trace_head(file: &[u8]) -> Result<Head, Refusal>
    ensures { answer_of no_head result ≡ trace_head most_ports file.now }
{
    let head = trace_parts::file_head(file, file.len())?;
    if bodies_sound(head.ports, head.count, file) {
        return Ok(head);
    }
    Err(Refusal::BadTrace)
}

// The entry of body k.
pub fn trace_entry(file: &[u8], k: usize) -> Result<Described, Refusal>
    ensures { answer_of no_description result ≡ trace_entry most_ports file.now k }
{
    trace_head(file)?;
    trace_parts::read_entry(file, k)
}

// Shows body k, as that part of the file itself.
pub fn trace_body<'a>(file: &'a [u8], k: usize) -> Result<&'a [u8], Refusal>
    ensures { MatchResult result
        (λ body. (body.now ≡ body_part most_ports file.now k) × (body.ref_ptr ≡ (file.entry.ref_ptr.0, file.entry.ref_ptr.1 + body_start most_ports file.now k)) × (body_number most_ports file.now k ≡ 0))
        (λ why. (number why ≡ body_number most_ports file.now k) × (body_part most_ports file.now k ≡ [])) }
{
    let read = trace_entry(file, k)?;
    let entry = read.entry;
    let start = entry.offset as usize;
    let end = start + read.len as usize;
    Ok(&file[start..end])
}
