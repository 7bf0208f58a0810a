// What the tests and the benchmark call beside the C form: the checks and rule 5 alone. measured_c gives it to C.
#![tactic(auto)]

mod central_rule;

ghost use Rattle.std.specs.Prelude.{◌≡◌};
ghost use Rattle.words.specs.Check.{crc_of};
ghost use Rattle.measured.specs.Checks.{checks_of, slot_checks};

pub use central_rule::{measured_columns, measured_plain};

// A name for each check, since C calls both.
pub fn measured_crc(bytes: &[u8]) -> u16
    ensures { result ≡ crc_of bytes.now }
{
    words::crc(bytes)
}

pub fn measured_long_crc(bytes: &[u8]) -> u16
    ensures { result ≡ crc_of bytes.now }
{
    long_check::long_crc(bytes)
}

// Of a configuration frame without its check, and of a grant frame's part of the same bytes.
fn both(part: &[u8; 9]) -> u16
    ensures { result ≡ checks_of part.now }
{
    words::crc(part) ^ words::crc(&part[..5])
}

// All checks of one slot in one call, so that the compiler knows their lengths, as it does in the slot.
pub fn measured_checks(bytes: &[u8]) -> u16
    ensures { result ≡ slot_checks bytes.now }
{
    if bytes.len() != 144 {
        return 0;
    }
    let (parts, _) = bytes.as_chunks();
    parts.iter().fold(0, |sum, part| sum ^ both(part))
}
