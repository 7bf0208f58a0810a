// The numbers on the command line.
use std::env::Env;
use std::str;

// Digits alone, of a number that 32 bits hold.
fn number_in(text: &[u8]) -> Option<u32> {
    if !text.iter().all(u8::is_ascii_digit) {
        return None;
    }
    str::from_utf8(text).ok()?.parse().ok()
}

// Word k of the command line.
pub fn number_at(env: &impl Env, k: usize) -> Option<u32> {
    let mut buf = outside::buffer();
    number_in(outside::word(env, k, &mut buf)?)
}
