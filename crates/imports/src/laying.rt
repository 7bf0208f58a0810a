// The second pass over a capture: its bodies, laid one behind the other.
ghost use Rattle.std.specs.Prelude.{◌≡◌, true, ◌++◌, ◌+◌, ◌≤◌, length, drop};
ghost use Rattle.refusals.specs.Numbers.{number_of};
ghost use Rattle.frames.specs.Part.{most_ports};
ghost use Rattle.import_steps.specs.Taking.{known, ends_body};
ghost use Rattle.import_steps.specs.Laying.{is_open, open_len};
ghost use Rattle.imports.specs.Cut.{joined_bytes, all_bodies};
ghost use Rattle.imports.specs.Passes.{cut_of, ended_in, ended_at, shut_in};

use crate::capture::Capture;
use captures::ByteOrder;
use import_steps::Import;
use refusals::Refusal;

// Closes the open body if it ends with the record after which q is known; where the open body starts then. A place, and no slice, for the
// bytes before it stay in the region.
fn end_body(p: Import, q: Import, start: usize, region: &mut [u8]) -> usize
    requires { (start ≤ length region.old) × (ends_body (known p) (known q) ≡ true → is_open most_ports (known p) ≡ true) × (ends_body (known p) (known q) ≡ true → start + open_len (known p) ≤ length region.old) }
    ensures { (result ≡ ended_at (known p) (known q) start) × (region.new ≡ ended_in most_ports (known p) (known q) start region.old) }
{
    if import_steps::ends_body(p, q) {
        // The body is open, and there is room.
        let _ = import_steps::close_body(p, &mut region[start..]);
        return start + trace_parts::body_size(p.state.ports, p.slots);
    }
    start
}

fn close_last(p: Import, start: usize, region: &mut [u8])
    requires { start ≤ length region.old }
    ensures { region.new ≡ shut_in most_ports (known p) start region.old }
{
    if 0 < p.slots {
        // Likewise.
        let _ = import_steps::close_body(p, &mut region[start..]);
    }
}

impl Capture<'_> {
    // All bodies of a capture that was found sound.
    pub fn lay_bodies(self, region: &mut [u8]) -> Result<(), Refusal>
        requires { ((cut_of self.order self.start self.bytes.now).known.number ≡ 0) × (length (joined_bytes self.start.state.ports (all_bodies (cut_of self.order self.start self.bytes.now))) ≤ length region.old) }
        ensures { (number_of result ≡ 0) × (region.new ≡ joined_bytes self.entry.start.state.ports (all_bodies (cut_of self.entry.order self.entry.start self.entry.bytes.now)) ++ drop (length (joined_bytes self.entry.start.state.ports (all_bodies (cut_of self.entry.order self.entry.start self.entry.bytes.now)))) region.old) }
    {
        let len = captures::record_len(self.start.state.ports);
        let mut p = self.start;
        let mut start = 0;
        for record in self.bytes[ByteOrder::HEADER..].chunks_exact(len) {
            let q = import_steps::take_record(self.order, p, record)?;
            start = end_body(p, q, start, region);
            import_steps::lay_record(self.order, p, record, &mut region[start..])?;
            p = q;
        }
        close_last(p, start, region);
        Ok(())
    }
}
