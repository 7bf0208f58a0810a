// Ten tables of 256 entries, one behind the other: what bits of zeros make of each byte.
ghost use Rattle.std.specs.Prelude.{◌≡◌, ◌+◌, ◌≤◌, ◌<◌, length};
ghost use Rattle.long_check.specs.Zeros.{passed, zeros, Doubled, Filled, Tables};

// What the zeros of each table make of the byte 1.
const STARTS: [u16; 10] = [
    0x1021, 0x3331, 0x3730, 0x76B4, 0xAA51, 0x45A0, 0xB861, 0x47D3, 0xAEFC, 0xA824,
];

// The n entries from a place on, once more behind them, with x laid over each.
fn double(t: &mut [u16], from: usize, n: usize, x: u16)
    requires { from + (n + n) ≤ length t.old }
    ensures { Doubled from n n x t.old t.new }
{
    // By index: an entry is read and another written, in one table.
    for i in 0..n {
        t[from + n + i] = t[from + i] ^ x;
    }
}

// The table of the zeros that make x of the byte 1: each bit of a byte doubles the entries before it.
fn fill(t: &mut [u16], from: usize, x: u16)
    requires { from + 256 ≤ length t.old }
    ensures { Filled from x t.old t.new }
{
    t[from] = 0;
    let mut y = x;
    for b in 0..8u8 {
        double(t, from, 1 << b, y);
        y = words::crc_bit(y);
    }
}

// The tables in a place that is lent for them, since to move them takes as long as fifty bytes of a check.
#[derive(Clone, Copy)]
pub(crate) struct Entries<'a> {
    of: &'a [u16; 2560],
    ghost hold: { Tables 10 of.now },
}

impl<'a> Entries<'a> {
    // Made at each call: a constant would be copied at each call all the same, and is 2,560 numbers to read and to prove.
    pub(crate) fn made(of: &'a mut [u16; 2560]) -> Entries<'a> {
        // By index: k says which table's start it is, and where the table begins.
        for k in 0..10usize {
            fill(of, k * 256, STARTS[k]);
        }
        Entries { of }
    }

    pub(crate) fn at(self, k: usize, b: u8) -> u16
        requires { k < 10 }
        ensures { result ≡ passed (zeros k) b }
    {
        self.of[k * 256 + usize::from(b)]
    }
}
