// Words as bytes, the high one first: the library's, promised in the words of laws' Bytes, which its own contracts do not have.
ghost use Rattle.std.specs.Prelude.{◌≡◌, [], ◌∷◌};
ghost use Rattle.laws.specs.Bytes.{big_endian, number};

#[tactic(auto, using(crate::proofs::LibraryBytes::of_two))]
pub fn of_two(a: u8, b: u8) -> u16
    ensures { result ≡ number (a ∷ b ∷ []) }
{
    u16::from_be_bytes([a, b])
}

#[tactic(auto, using(crate::proofs::LibraryBytes::of_four))]
pub fn of_four(a: u8, b: u8, c: u8, d: u8) -> u32
    ensures { result ≡ number (a ∷ b ∷ c ∷ d ∷ []) }
{
    u32::from_be_bytes([a, b, c, d])
}

#[tactic(auto, using(crate::proofs::LibraryBytes::two_bytes))]
pub fn two_bytes(x: u16) -> [u8; 2]
    ensures { result ≡ big_endian 2 x }
{
    x.to_be_bytes()
}

#[tactic(auto, using(crate::proofs::LibraryBytes::four_bytes))]
pub fn four_bytes(x: u32) -> [u8; 4]
    ensures { result ≡ big_endian 4 x }
{
    x.to_be_bytes()
}
