// The contents of a trace, written.
ghost use Rattle.std.specs.Prelude.{◌≡◌, true, false, ◌++◌, ◌*◌, ◌≤◌, length, get_or, drop, MatchResult};
ghost use Rattle.laws.specs.Steps.{every};
ghost use Rattle.laws.specs.Tests.{between};
ghost use Rattle.refusals.specs.Numbers.{number, number_of};
ghost use Rattle.frames.specs.Part.{most_ports};
ghost use Rattle.trace_parts.specs.Layout.{contents_len, most_slots};
ghost use Rattle.trace_writer.specs.Writer.{head_bytes, entry_bytes, entries_for, contents_of, counts_fit, contents_number, contents_output};

use long_check::ByTables;
use refusals::Refusal;
use trace_parts::{Entry, Layout, contents_len};
use words::{four_bytes, seal, two_bytes};

// What contents list: the ports, and of each body its first slot and its slot count. In two lists, as C gives them.
#[derive(Clone, Copy)]
pub(crate) struct Listing<'a> {
    pub(crate) ports: usize,
    pub(crate) firsts: &'a [u32],
    pub(crate) slots: &'a [u16],
    ghost fits: { counts_fit most_ports ports firsts.now slots.now ≡ true },
}

// The low byte of the ports, which no conversion of the library takes. Byte by byte: the library joins arrays only on a heap.
fn head_bytes(n: usize, count: u16) -> [u8; Layout::HEAD]
    ensures { result ≡ head_bytes n count }
{
    let count = two_bytes(count);
    [(n % 256) as u8, count[0], count[1]]
}

// Byte by byte, likewise.
fn entry_bytes(entry: Entry) -> [u8; Layout::ENTRY]
    ensures { result ≡ entry_bytes entry }
{
    let first = four_bytes(entry.first);
    let slots = two_bytes(entry.slots);
    let offset = four_bytes(entry.offset);
    [
        first[0], first[1], first[2], first[3], slots[0], slots[1], offset[0], offset[1],
        offset[2], offset[3],
    ]
}

fn put_entry(entry: Entry, out: &mut [u8])
    requires { 10 ≤ length out.old }
    ensures { out.new ≡ entry_bytes entry ++ drop 10 out.old }
{
    out[..Layout::ENTRY].copy_from_slice(&entry_bytes(entry));
}

#[tactic(auto, using(laws::proofs::Every::every_none, laws::proofs::Every::every_again, laws::proofs::Every::every_done))]
fn slots_fit(n: usize, slots: &[u16]) -> bool
    ensures { result ≡ every (λ k. between 1 (most_slots n) (get_or slots.now k 0)) (length slots.now) }
{
    let mut sound = true;
    for &count in slots {
        sound = sound & trace_parts::slots_sound(n, count);
    }
    sound
}

fn counts_fit(n: usize, firsts: &[u32], slots: &[u16]) -> bool
    ensures { result ≡ counts_fit most_ports n firsts.now slots.now }
{
    trace_parts::ports_sound(n)
        & ((firsts.len() == slots.len()) & ((slots.len() <= Layout::BODIES) & slots_fit(n, slots)))
}

impl<'a> Listing<'a> {
    pub(crate) fn of(
        ports: usize,
        firsts: &'a [u32],
        slots: &'a [u16],
    ) -> Result<Listing<'a>, Refusal>
        ensures { MatchResult result
            (λ list. (list.ports ≡ ports) × (list.firsts.now ≡ firsts.now) × (list.slots.now ≡ slots.now))
            (λ why. (number why ≡ 14) × (counts_fit most_ports ports firsts.now slots.now ≡ false)) }
    {
        if counts_fit(ports, firsts, slots) {
            return Ok(Listing {
                ports,
                firsts,
                slots,
            });
        }
        Err(Refusal::BadTrace)
    }

    fn count(self) -> u16
        ensures { result ≡ length self.entry.slots.now }
    {
        self.slots.len() as u16
    }

    // How many bytes the contents have.
    pub(crate) fn len(self) -> usize
        ensures { (result ≡ contents_len (length self.entry.slots.now)) × (result ≤ 655355) }
    {
        contents_len(self.count())
    }

    fn put_entries(self, out: &mut [u8])
        requires { length self.slots.now * 10 ≤ length out.old }
        ensures { out.new ≡ entries_for self.entry.ports self.entry.firsts.now self.entry.slots.now ++ drop (length self.entry.slots.now * 10) out.old }
    {
        let mut offset = self.len();
        // By index: k says where the entry stands, too.
        for k in 0..self.slots.len() {
            let slots = self.slots[k];
            let entry = Entry {
                first: self.firsts[k],
                slots,
                offset: offset as u32,
            };
            let at = k * Layout::ENTRY;
            put_entry(entry, &mut out[at..]);
            offset = offset + trace_parts::body_size(self.ports, slots);
        }
    }

    pub(crate) fn put(self, out: &mut [u8])
        requires { length out.old ≡ contents_len (length self.slots.now) }
        ensures { out.new ≡ contents_of self.entry.ports self.entry.firsts.now self.entry.slots.now }
    {
        let (head, entries) = out.split_at_mut(Layout::HEAD);
        head.copy_from_slice(&head_bytes(self.ports, self.count()));
        self.put_entries(entries);
        seal::<ByTables>(out);
    }
}

// The contents alone, for bodies that are written one by one.
pub fn write_contents(
    n: usize,
    firsts: &[u32],
    slots: &[u16],
    out: &mut [u8],
) -> Result<(), Refusal>
    ensures { (number_of result ≡ contents_number most_ports n firsts.now slots.now out.old) × (out.new ≡ contents_output most_ports n firsts.now slots.now out.old) }
{
    let list = Listing::of(n, firsts, slots)?;
    let len = list.len();
    if out.len() < len {
        return Err(Refusal::OutTooShort);
    }
    list.put(&mut out[..len]);
    Ok(())
}
