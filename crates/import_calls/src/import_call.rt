// The import of a capture by its C name.
ghost use Rattle.std.specs.Prelude.{◌≡◌};
ghost use Rattle.frames.specs.Part.{most_ports};
ghost use Rattle.import_calls.specs.Call.{report_bytes, call_number, call_output, call_report};

use imports::Imported;

const REPORT_LEN: usize = 8;

// The four low bytes of each. One by one: the library joins arrays only on a heap.
fn report_bytes(told: Imported) -> [u8; REPORT_LEN]
    ensures { result ≡ report_bytes told }
{
    let length = told.length.to_be_bytes();
    let resent = told.resent.to_be_bytes();
    [
        length[4], length[5], length[6], length[7], resent[0], resent[1], resent[2], resent[3],
    ]
}

pub fn bellacush_import(
    n: u32,
    mode: u32,
    i: u32,
    j: u32,
    capture: &[u8],
    out: &mut [u8],
    report: &mut [u8],
) -> u32
    ensures { (result ≡ call_number most_ports n mode i j capture.now out.old report.old) × (out.new ≡ call_output most_ports n mode i j capture.now out.old report.old) × (report.new ≡ call_report most_ports n mode i j capture.now out.old report.old) }
{
    if report.len() != REPORT_LEN {
        return 8;
    }
    match imports::import_capture(n as usize, mode, i as usize, j as usize, capture, out) {
        Ok(told) => {
            report.copy_from_slice(&report_bytes(told));
            0
        }
        Err(why) => u32::from(why.number()),
    }
}
