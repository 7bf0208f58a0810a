// The first pass over a capture: what its records make, and the first slot and slot count of each body.
ghost use Rattle.std.specs.Prelude.{◌≡◌, length, take};
ghost use Rattle.std.specs.Result.{IfOk};
ghost use Rattle.refusals.specs.Numbers.{number_of};
ghost use Rattle.trace_parts.specs.Layout.{most_bodies};
ghost use Rattle.import_steps.specs.Taking.{known};
ghost use Rattle.imports.specs.Cut.{all_bodies};
ghost use Rattle.imports.specs.Import.{firsts_of, counts_of};
ghost use Rattle.imports.specs.Passes.{cut_of};

use crate::capture::Capture;
use captures::ByteOrder;
use import_steps::Import;
use refusals::Refusal;

impl Capture<'_> {
    // What is known after all records. Two lists, as the contents' writer takes them.
    pub fn scan(self, firsts: &mut [u32], slots: &mut [u16]) -> Result<Import, Refusal>
        requires { (length firsts.old ≡ most_bodies) × (length slots.old ≡ most_bodies) }
        ensures number { number_of result ≡ (cut_of self.entry.order self.entry.start self.entry.bytes.now).known.number }
        ensures known { IfOk result (λ p. (known p ≡ (cut_of self.entry.order self.entry.start self.entry.bytes.now).known) × (take p.bodies firsts.new ≡ firsts_of (all_bodies (cut_of self.entry.order self.entry.start self.entry.bytes.now))) × (take p.bodies slots.new ≡ counts_of (all_bodies (cut_of self.entry.order self.entry.start self.entry.bytes.now)))) }
    {
        let len = captures::record_len(self.start.state.ports);
        let mut p = self.start;
        for record in self.bytes[ByteOrder::HEADER..].chunks_exact(len) {
            p = import_steps::take_record(self.order, p, record)?;
            import_steps::note_body(p, firsts, slots);
        }
        Ok(p)
    }
}
