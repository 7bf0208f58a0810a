// The import of a capture, as C calls it.
// C has a name for it, so it is one call of the crate below.
#![tactic(auto)]

ghost use Rattle.std.specs.Prelude.{◌≡◌};
ghost use Rattle.frames.specs.Part.{most_ports};
ghost use Rattle.import_calls.specs.Call.{call_number, call_output, call_report};

#[unsafe(no_mangle)]
pub extern "C" fn bellacush_import(
    n: u32,
    mode: u32,
    i: u32,
    j: u32,
    capture: &[u8],
    out: &mut [u8],
    report: &mut [u8],
) -> u32
    ensures { (result ≡ call_number most_ports n mode i j capture.now out.old report.old) × (out.new ≡ call_output most_ports n mode i j capture.now out.old report.old) × (report.new ≡ call_report most_ports n mode i j capture.now out.old report.old) }
{
    import_calls::bellacush_import(n, mode, i, j, capture, out, report)
}
