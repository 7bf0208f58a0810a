// A whole file, salvaged.
ghost use Rattle.std.specs.Prelude.{◌≡◌, true, ◌++◌, ◌*◌, ◌≤◌, length, take, drop};
ghost use Rattle.laws.specs.Tests.{between};
ghost use Rattle.refusals.specs.Numbers.{answer_of};
ghost use Rattle.frames.specs.Part.{most_ports};
ghost use Rattle.trace_parts.specs.Layout.{most_bodies};
ghost use Rattle.trace_writer.specs.Writer.{start_of};
ghost use Rattle.trace_writer.specs.Parts.{listed};
ghost use Rattle.salvages.specs.Salvage.{told_at, salvaged, no_salvage, salvage_answer, salvage_output, salvage_fates};

use crate::file::{JudgedFile, WholeFile};
use refusals::Refusal;

// The length of the new trace, and the body count of the file.
#[derive(Clone, Copy)]
pub struct Salvaged {
    pub len: u32,
    pub count: u32,
}

// How many bytes bodies of these slot counts have.
fn bodies_len(n: usize, slots: &[u16]) -> usize
    requires { (between 1 most_ports n ≡ true) × (length slots.now ≤ most_bodies) }
    ensures { (result ≡ start_of n slots.now (length slots.now)) × (result ≤ 1024 * 268435456) }
{
    let mut len: usize = 0;
    for &count in slots {
        len = len + trace_parts::body_size(n, count);
    }
    len
}

impl<'a> JudgedFile<'a> {
    // How many bytes the new trace has.
    fn new_len(&self) -> usize
        ensures { result ≡ length (salvaged most_ports self.now.file.bytes.now) }
    {
        let kept = self.judged.kept;
        trace_parts::contents_len(kept as u16)
            + bodies_len(self.file.ports, &self.judged.slots[..kept])
    }

    fn put_trace(&self, out: &mut [u8])
        requires { length (salvaged most_ports self.now.file.bytes.now) ≤ length out.old }
        ensures { out.new ≡ salvaged most_ports self.now.file.bytes.now ++ drop (length (salvaged most_ports self.now.file.bytes.now)) out.old }
    {
        let kept = self.judged.kept;
        // What is kept fits, and there is room.
        let _ = trace_writer::write_contents(
            self.file.ports,
            &self.judged.firsts[..kept],
            &self.judged.slots[..kept],
            out,
        );
        let at = trace_parts::contents_len(kept as u16);
        self.put_bodies(&mut out[at..]);
    }

    fn put_fates(&self, fates: &mut [u8])
        requires { self.now.file.count ≤ length fates.old }
        ensures { fates.new ≡ listed (told_at most_ports self.now.file.bytes.now) self.now.file.count ++ drop self.now.file.count fates.old }
    {
        // By number: a fate is told at its body's number.
        for k in 0..self.file.count {
            fates[k] = u8::from(self.judged.fate_of(k));
        }
    }
}

impl<'a> WholeFile<'a> {
    fn salvage(&self, out: &mut [u8], fates: &mut [u8]) -> Result<Salvaged, Refusal>
        requires { self.now.count ≤ length fates.old }
        ensures { (answer_of no_salvage result ≡ salvage_answer most_ports self.now.bytes.now out.old fates.old) × (out.new ≡ salvage_output most_ports self.now.bytes.now out.old fates.old) × (fates.new ≡ salvage_fates most_ports self.now.bytes.now out.old fates.old) }
    {
        let judged = JudgedFile {
            file: *self,
            judged: self.judged(),
        };
        let len = judged.new_len();
        if out.len() < len {
            return Err(Refusal::OutTooShort);
        }
        judged.put_trace(out);
        judged.put_fates(fates);
        Ok(Salvaged {
            len: len as u32,
            count: self.count as u32,
        })
    }
}

// Writes the sound bodies of a file as a new trace, and the fate of each body to its place in the table.
pub fn salvage(file: &[u8], out: &mut [u8], fates: &mut [u8]) -> Result<Salvaged, Refusal>
    ensures { (answer_of no_salvage result ≡ salvage_answer most_ports file.now out.old fates.old) × (out.new ≡ salvage_output most_ports file.now out.old fates.old) × (fates.new ≡ salvage_fates most_ports file.now out.old fates.old) }
{
    let whole = WholeFile::of(file)?;
    if fates.len() < whole.count {
        return Err(Refusal::OutTooShort);
    }
    whole.salvage(out, fates)
}
