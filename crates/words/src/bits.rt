// A word as digits.
ghost use Rattle.std.specs.Prelude.{◌≡◌, ◌-◌, ◌%◌, bit_and};
ghost use Rattle.laws.specs.Sets.{has, with, without};

// False for a digit that the word does not have. A word of 32 bits has its own in `columns`: a trait for both is longer than both.
pub fn holds(s: u16, k: usize) -> bool
    ensures { result ≡ has s k }
{
    if k < 16 { (s >> k) % 2 == 1 } else { false }
}

// With digit k. It is taken modulo 16, as the word's digits are numbered.
#[tactic(auto, using(laws::proofs::Words::or_puts))]
pub fn with(s: u16, k: usize) -> u16
    ensures { result ≡ with s (k % 16) }
{
    s | (1 << (k % 16))
}

// Without digit k, likewise.
pub fn without(s: u16, k: usize) -> u16
    ensures { result ≡ without s (k % 16) }
{
    s - (s & (1 << (k % 16)))
}

// What of s is not in t.
pub fn minus(s: u16, t: u16) -> u16
    ensures { result ≡ s - bit_and s t }
{
    s - (s & t)
}
