// The salvage of a trace, with its length and body count in words that are lent. salvage_calls_c gives it to C.
#![tactic(auto)]

ghost use Rattle.std.specs.Prelude.{◌≡◌};
ghost use Rattle.frames.specs.Part.{most_ports};
ghost use Rattle.salvage_calls.specs.Salvaging.{salvaged_words, salvaged_number, salvaged_shown, salvaged_output, salvaged_fates};

use lent::fill;
use refusals::number_of;
use salvages::Salvaged;

const SALVAGED_WORDS: usize = 2;

// No From: neither type is of this crate.
fn salvaged_words(made: Salvaged) -> [u32; SALVAGED_WORDS]
    ensures { result ≡ salvaged_words made }
{
    [made.len, made.count]
}

pub fn bellacush_salvage(file: &[u8], out: &mut [u8], fates: &mut [u8], shown: &mut [u32]) -> u32
    ensures { (result ≡ salvaged_number most_ports file.now out.old fates.old shown.old) × (out.new ≡ salvaged_output most_ports file.now out.old fates.old shown.old) × (fates.new ≡ salvaged_fates most_ports file.now out.old fates.old shown.old) × (shown.new ≡ salvaged_shown most_ports file.now out.old fates.old shown.old) }
{
    // Before anything is written.
    if shown.len() != SALVAGED_WORDS {
        return 8;
    }
    let made = salvages::salvage(file, out, fates);
    u32::from(number_of(fill(made.map(salvaged_words), shown)))
}
