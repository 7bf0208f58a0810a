// The salvage of a trace, as C calls it.
// C has a name for it, so it is one call of the crate below.
#![tactic(auto)]

ghost use Rattle.std.specs.Prelude.{◌≡◌};
ghost use Rattle.frames.specs.Part.{most_ports};
ghost use Rattle.salvage_calls.specs.Salvaging.{salvaged_number, salvaged_shown, salvaged_output, salvaged_fates};

#[unsafe(no_mangle)]
pub extern "C" fn bellacush_salvage(
    file: &[u8],
    out: &mut [u8],
    fates: &mut [u8],
    shown: &mut [u32],
) -> u32
    ensures { (result ≡ salvaged_number most_ports file.now out.old fates.old shown.old) × (out.new ≡ salvaged_output most_ports file.now out.old fates.old shown.old) × (fates.new ≡ salvaged_fates most_ports file.now out.old fates.old shown.old) × (shown.new ≡ salvaged_shown most_ports file.now out.old fates.old shown.old) }
{
    salvage_calls::bellacush_salvage(file, out, fates, shown)
}
