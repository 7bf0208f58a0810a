// The check: CRC-16, polynomial 0x1021, start 0xFFFF.
ghost use Rattle.std.specs.Prelude.{◌≡◌};
ghost use Rattle.words.specs.Check.{crc_bit, crc_byte, crc_of, sealed, intact};

pub fn crc_bit(c: u16) -> u16
    ensures { result ≡ crc_bit c }
{
    if c < 0x8000 {
        c << 1
    } else {
        (c << 1) ^ 0x1021
    }
}

// As a loop, the compiler makes of the eight steps what it makes of them in Rust.
#[tactic(auto, using(laws::proofs::Loops::again, laws::proofs::Loops::done, laws::proofs::Loops::none), unfolding(crate::specs::Check::crc_byte))]
fn crc_byte(c: u16, b: u8) -> u16
    ensures { result ≡ crc_byte c b }
{
    let mut x = c ^ (u16::from(b) * 256);
    for _ in 0..8u8 {
        x = crc_bit(x);
    }
    x
}

pub fn crc(s: &[u8]) -> u16
    ensures { result ≡ crc_of s.now }
{
    s.iter().fold(0xFFFF, |c, &b| crc_byte(c, b))
}

// A way to make the check. Each makes the same, in its own time.
pub trait Check {
    fn of(s: &[u8]) -> u16
        ensures { result ≡ crc_of s.now };
}

// Bit by bit: the fastest for the few bytes of a frame.
pub struct ByBits {}

impl Check for ByBits {
    fn of(s: &[u8]) -> u16 {
        crc(s)
    }
}

// Puts the check of the bytes before them into the last two.
pub fn seal<C: Check>(s: &mut [u8])
    ensures { s.new ≡ sealed s.old }
{
    if let Some((front, check)) = s.split_last_chunk_mut() {
        *check = C::of(front).to_be_bytes();
    }
}

// Whether the last two bytes are the check of those before them.
pub fn intact<C: Check>(s: &[u8]) -> bool
    ensures { result ≡ intact s.now }
{
    match s.split_last_chunk() {
        Some((front, check)) => u16::from_be_bytes(*check) == C::of(front),
        None => false,
    }
}
