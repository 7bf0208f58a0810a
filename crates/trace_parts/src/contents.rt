// The contents of a trace.
ghost use Rattle.std.specs.Prelude.{◌≡◌, true, false, ◌+◌, ◌*◌, ◌≤◌, ◌<◌, length, unwrap_or, IfSome, MatchResult};
ghost use Rattle.laws.specs.Bytes.{number_at};
ghost use Rattle.laws.specs.Steps.{every};
ghost use Rattle.refusals.specs.Numbers.{number, answer_of};
ghost use Rattle.frames.specs.Part.{most_ports};
ghost use Rattle.trace_parts.specs.Layout.{body_len};
ghost use Rattle.trace_parts.specs.Contents.{ports_of, count_of, entry_at, entry_of, due, entry_sound, contents_sound, no_head, head_of, contents_head, file_head, has_entry, no_description, read_entry, contents_size};

use crate::layout::{Layout, body_len, contents_len, ports_sound, slots_sound};
use long_check::ByTables;
use refusals::Refusal;
use words::intact;

#[derive(Clone, Copy, Default)]
pub struct Entry {
    pub first: u32,
    pub slots: u16,
    pub offset: u32,
}

// An entry, and the bytes of its body.
#[derive(Clone, Copy, Default)]
pub struct Described {
    pub entry: Entry,
    pub len: u32,
}

#[derive(Clone, Copy)]
pub struct Head {
    pub ports: usize,
    pub count: usize,
}

// The number of four bytes that starts at byte `at`.
fn long(s: &[u8], at: usize) -> u32
    requires { at + 4 ≤ length s.now }
    ensures { result ≡ number_at 4 at s.now }
{
    words::of_four(s[at], s[at + 1], s[at + 2], s[at + 3])
}

// The start of a file, with ports and body count at least.
#[derive(Clone, Copy)]
struct Start<'a> {
    bytes: &'a [u8],
    ghost holds_head: { 3 ≤ length bytes.now },
}

impl<'a> Start<'a> {
    fn of(bytes: &'a [u8]) -> Result<Start<'a>, Refusal>
        ensures { MatchResult result (λ start. start.bytes.now ≡ bytes.now) (λ why. (number why ≡ 14) × (length bytes.now < 3)) }
    {
        if bytes.len() < Layout::HEAD {
            return Err(Refusal::BadTrace);
        }
        Ok(Start { bytes })
    }

    // Of sound contents.
    fn of_sound(bytes: &'a [u8]) -> Result<Start<'a>, Refusal>
        ensures { MatchResult result
            (λ start. (start.bytes.now ≡ bytes.now) × (contents_sound most_ports bytes.now ≡ true))
            (λ why. (number why ≡ 14) × (contents_sound most_ports bytes.now ≡ false)) }
    {
        let start = Start::of(bytes)?;
        if start.is_sound() {
            return Ok(start);
        }
        Err(Refusal::BadTrace)
    }

    fn ports(&self) -> usize
        ensures { (result ≡ ports_of self.now.bytes.now) × (result ≤ 255) }
    {
        usize::from(self.bytes[0])
    }

    fn count(&self) -> u16
        ensures { result ≡ count_of self.now.bytes.now }
    {
        words::of_two(self.bytes[1], self.bytes[2])
    }

    fn head(&self) -> Head
        ensures { result ≡ head_of self.now.bytes.now }
    {
        Head {
            ports: self.ports(),
            count: self.count() as usize,
        }
    }

    fn entry(&self, k: usize) -> Entry
        requires { entry_at k + 10 ≤ length self.now.bytes.now }
        ensures { result ≡ entry_of self.now.bytes.now k }
    {
        let at = Layout::HEAD + k * Layout::ENTRY;
        Entry {
            first: long(self.bytes, at),
            slots: words::of_two(self.bytes[at + 4], self.bytes[at + 5]),
            offset: long(self.bytes, at + 6),
        }
    }

    // Where body k has to start; or, at the count, where the file has to end.
    fn due(&self, k: usize) -> usize
        requires { entry_at k ≤ length self.now.bytes.now }
        ensures { result ≡ due self.now.bytes.now k }
    {
        if k == 0 {
            return contents_len(self.count());
        }
        end_of(self.ports(), self.entry(k - 1))
    }

    fn entry_sound(&self, k: usize) -> bool
        requires { entry_at k + 10 ≤ length self.now.bytes.now }
        ensures { result ≡ entry_sound self.now.bytes.now k }
    {
        let entry = self.entry(k);
        slots_sound(self.ports(), entry.slots) & (entry.offset as usize == self.due(k))
    }

    #[tactic(auto, using(laws::proofs::Every::every_none, laws::proofs::Every::every_again, laws::proofs::Every::every_done))]
    fn entries_sound(&self, count: usize) -> bool
        requires { entry_at count ≤ length self.now.bytes.now }
        ensures { result ≡ every (entry_sound self.now.bytes.now) count }
    {
        let mut sound = true;
        // By number: entry k is due where entry k - 1 ends.
        for k in 0..count {
            sound = sound & self.entry_sound(k);
        }
        sound
    }

    // Whether the bytes show entry k.
    fn has_entry(&self, k: usize) -> bool
        ensures { result ≡ has_entry most_ports self.now.bytes.now k }
    {
        if k < self.count() as usize {
            let end = Layout::HEAD + k * Layout::ENTRY + Layout::ENTRY;
            return (end <= self.bytes.len()) & ports_sound(self.ports());
        }
        false
    }

    // Whether it starts with contents of proper form and right check.
    fn is_sound(&self) -> bool
        ensures { result ≡ contents_sound most_ports self.now.bytes.now }
    {
        let count = self.count();
        let end = contents_len(count);
        if self.bytes.len() < end {
            return false;
        }
        let bodies = count as usize;
        intact::<ByTables>(&self.bytes[..end])
            & (ports_sound(self.ports())
                & ((bodies <= Layout::BODIES) & self.entries_sound(bodies)))
    }
}

// Where an entry's body ends, in a trace of n ports. n is a usize up to 255, as in body_len: with a u8, each of its users would convert it.
fn end_of(n: usize, entry: Entry) -> usize
    requires { n ≤ 255 }
    ensures { result ≡ entry.offset + body_len n entry.slots }
{
    entry.offset as usize + body_len(n, entry.slots)
}

// Of sound contents.
pub fn contents_head(start: &[u8]) -> Result<Head, Refusal>
    ensures { answer_of no_head result ≡ contents_head most_ports start.now }
{
    let sound = Start::of_sound(start)?;
    Ok(sound.head())
}

// Of sound contents at the start of a file of so many bytes, which its last body ends.
pub fn file_head(start: &[u8], len: usize) -> Result<Head, Refusal>
    ensures { answer_of no_head result ≡ file_head most_ports len start.now }
{
    let sound = Start::of_sound(start)?;
    if sound.due(sound.count() as usize) == len {
        return Ok(sound.head());
    }
    Err(Refusal::BadTrace)
}

// Entry k, in constant time, of contents that were found sound: they are not tested again.
pub fn read_entry(start: &[u8], k: usize) -> Result<Described, Refusal>
    ensures { answer_of no_description result ≡ read_entry most_ports start.now k }
{
    let held = Start::of(start)?;
    if held.has_entry(k) {
        let entry = held.entry(k);
        let len = body_len(held.ports(), entry.slots) as u32;
        return Ok(Described { entry, len });
    }
    Err(Refusal::BadTrace)
}

// How many bytes the contents have that start so; none where the count is not there or too great.
pub fn contents_size(start: &[u8]) -> Option<usize>
    ensures { (unwrap_or result 0 ≡ contents_size start.now) × IfSome result (λ len. (5 ≤ len) × (len ≤ 10245)) }
{
    let Ok(held) = Start::of(start) else {
        return None;
    };
    let count = held.count();
    if Layout::BODIES < count as usize {
        return None;
    }
    Some(contents_len(count))
}
