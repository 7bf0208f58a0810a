// The check over a long slice, sixteen bytes at a time.
ghost use Rattle.std.specs.Prelude.{◌≡◌, [], ◌∷◌, ◌+◌, ◌*◌, ◌≤◌, take, drop};
ghost use Rattle.laws.specs.Bytes.{Bytes};
ghost use Rattle.words.specs.Check.{crc_byte, crc_from, crc_of};
ghost use Rattle.long_check.specs.Zeros.{passed, After};

use crate::tables::Entries;
use words::Check;

impl Entries<'_> {
    fn one(self, c: u16, b: u8) -> u16
        ensures { result ≡ crc_byte c b }
    {
        let [high, low] = c.to_be_bytes();
        self.at(0, high ^ b) ^ (u16::from(low) * 256)
    }

    // Four bytes with k bytes of zeros behind them. Here and below, what waits for c comes last: it is compiled in this order.
    fn four(self, k: usize, c: u16, a: u8, b: u8, d: u8, e: u8) -> u16
        requires { k ≤ 4 }
        ensures { (result ≡ passed (8 * k) (crc_from c (a ∷ b ∷ d ∷ e ∷ []))) × Bytes (a ∷ b ∷ d ∷ e ∷ []) }
    {
        let [high, low] = c.to_be_bytes();
        self.at(k, e) ^ self.at(k + 1, d) ^ self.at(k + 2, low ^ b) ^ self.at(k + 3, high ^ a)
    }

    fn eight(self, c: u16, s: &[u8; 16], i: usize) -> u16
        requires { i + 8 ≤ 16 }
        ensures { After c (take 8 (drop i s.now)) result }
    {
        let j = i + 4;
        self.four(0, 0, s[j], s[j + 1], s[j + 2], s[j + 3])
            ^ self.four(4, c, s[i], s[i + 1], s[i + 2], s[i + 3])
    }

    // Sixteen bytes behind no check, so that they wait for none.
    fn block(self, s: &[u8; 16]) -> u16
        ensures { After 0 s.now result }
    {
        let first = self.eight(0, s, 0);
        self.eight(first, s, 8)
    }

    // The check so far, after sixteen bytes of zeros.
    fn carried(self, c: u16) -> u16
        ensures { result ≡ passed 128 c }
    {
        let [high, low] = c.to_be_bytes();
        self.at(9, high) ^ self.at(8, low)
    }

    fn sixteen(self, c: u16, s: &[u8; 16]) -> u16
        ensures { result ≡ crc_from c s.now }
    {
        self.block(s) ^ self.carried(c)
    }

    fn check(self, s: &[u8]) -> u16
        ensures { result ≡ crc_of s.now }
    {
        let (blocks, rest) = s.as_chunks();
        let c = blocks
            .iter()
            .fold(0xFFFF, |c, block| self.sixteen(c, block));
        rest.iter().fold(c, |c, &b| self.one(c, b))
    }
}

pub fn long_crc(s: &[u8]) -> u16
    ensures { result ≡ crc_of s.now }
{
    // By length: to make the tables takes as long as these few bytes without any.
    if s.len() < 80 {
        return words::crc(s);
    }
    let mut place = [0; 2560];
    Entries::made(&mut place).check(s)
}

// By tables: the fastest for many bytes.
pub struct ByTables {}

impl Check for ByTables {
    fn of(s: &[u8]) -> u16 {
        long_crc(s)
    }
}
