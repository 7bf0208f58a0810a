// What the tests and the benchmark call beside the C form: C has a name for each, so each is one call of the crate below.
#![tactic(auto)]

ghost use Rattle.std.specs.Prelude.{◌≡◌};
ghost use Rattle.words.specs.Check.{crc_of};
ghost use Rattle.measured.specs.Checks.{slot_checks};
ghost use Rattle.frames.specs.Part.{most_ports};
ghost use Rattle.measured.specs.Rule.{sets_after};

#[unsafe(no_mangle)]
pub extern "C" fn measured_crc(bytes: &[u8]) -> u16
    ensures { result ≡ crc_of bytes.now }
{
    measured::measured_crc(bytes)
}

#[unsafe(no_mangle)]
pub extern "C" fn measured_long_crc(bytes: &[u8]) -> u16
    ensures { result ≡ crc_of bytes.now }
{
    measured::measured_long_crc(bytes)
}

#[unsafe(no_mangle)]
pub extern "C" fn measured_checks(bytes: &[u8]) -> u16
    ensures { result ≡ slot_checks bytes.now }
{
    measured::measured_checks(bytes)
}

#[unsafe(no_mangle)]
pub extern "C" fn measured_plain(n: u32, i: u32, j: u32, live: &[u8], sets: &mut [u8])
    ensures { sets.new ≡ sets_after most_ports n i j live.now sets.old }
{
    measured::measured_plain(n, i, j, live, sets)
}

#[unsafe(no_mangle)]
pub extern "C" fn measured_columns(n: u32, i: u32, j: u32, live: &[u8], sets: &mut [u8])
    ensures { sets.new ≡ sets_after most_ports n i j live.now sets.old }
{
    measured::measured_columns(n, i, j, live, sets)
}
