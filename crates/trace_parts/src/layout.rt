// The measures of a trace.
ghost use Rattle.std.specs.Prelude.{◌≡◌, ◌≤◌};
ghost use Rattle.laws.specs.Tests.{between};
ghost use Rattle.frames.specs.Part.{most_ports};
ghost use Rattle.trace_parts.specs.Layout.{block_len, body_len, contents_len, most_mode, most_slots, body_size};

use frames::{Config, Ports};

#[derive(Clone, Copy)]
pub struct Layout {}

impl Layout {
    pub const BODIES: usize = 1024;
    // The bytes of ports and body count, of an entry, of mode, I and J, and of a check.
    pub const HEAD: usize = 3;

    pub const ENTRY: usize = 10;

    pub const FIELDS: usize = 3;

    pub const CHECK: usize = 2;
}

pub(crate) fn most_mode(n: usize) -> usize
    ensures { result ≡ most_mode n }
{
    Ports::MOST + 1
}

pub(crate) fn most_slots(n: usize) -> u16
    ensures { result ≡ most_slots n }
{
    360
}

pub fn ports_sound(n: usize) -> bool
    ensures { result ≡ between 1 most_ports n }
{
    (1 <= n) & (n <= Ports::MOST)
}

// Whether a body for n ports may have so many slots.
pub fn slots_sound(n: usize, slots: u16) -> bool
    ensures { result ≡ between 1 (most_slots n) slots }
{
    (1 <= slots) & (slots <= most_slots(n))
}

pub fn contents_len(count: u16) -> usize
    ensures { (result ≡ contents_len count) × (result ≤ 655355) }
{
    Layout::HEAD + count as usize * Layout::ENTRY + Layout::CHECK
}

// Of a port count that a byte holds.
pub(crate) fn block_len(n: usize) -> usize
    requires { n ≤ 255 }
    ensures { (result ≡ block_len n) × (result ≤ 4096) }
{
    n * Config::LEN
}

pub(crate) fn body_len(n: usize, slots: u16) -> usize
    requires { n ≤ 255 }
    ensures { (result ≡ body_len n slots) × (5 ≤ result) × (result ≤ 268435456) }
{
    Layout::FIELDS + slots as usize * block_len(n) + Layout::CHECK
}

// The bytes of a body of so many slots, for n ports; 0, and no refusal, where n is no port count, since it can't fail.
pub fn body_size(n: usize, slots: u16) -> usize
    ensures { (result ≡ body_size most_ports n slots) × (result ≤ 268435456) }
{
    if ports_sound(n) {
        return body_len(n, slots);
    }
    0
}
