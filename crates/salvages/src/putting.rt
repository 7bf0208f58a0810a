// The sound bodies of a file, put one after the other.
ghost use Rattle.std.specs.Prelude.{◌≡◌, ◌++◌, ◌+◌, ◌≤◌, length, take, drop};
ghost use Rattle.frames.specs.Part.{most_ports};
ghost use Rattle.traces.specs.Trace.{body_at};
ghost use Rattle.salvages.specs.Salvage.{fate_at, if_sound, kept_bodies};

use crate::file::{Body, JudgedFile};
use body_fates::Fate;

impl<'a> Body<'a> {
    // Puts it behind those before it, if it is kept, and says where it ends: a place, and no slice, for those before it stay in the output.
    fn put_kept(self, fate: Fate, at: usize, out: &mut [u8]) -> usize
        requires { (fate ≡ fate_at most_ports self.file.bytes.now self.k) × (at + length (if_sound most_ports self.file.bytes.now (body_at self.file.bytes.now) self.k) ≤ length out.old) }
        ensures { (result ≡ at + length (if_sound most_ports self.entry.file.bytes.now (body_at self.entry.file.bytes.now) self.entry.k)) × (out.new ≡ take at out.old ++ (if_sound most_ports self.entry.file.bytes.now (body_at self.entry.file.bytes.now) self.entry.k ++ drop result out.old)) }
    {
        if fate == Fate::Kept {
            let body = self.bytes();
            let end = at + body.len();
            out[at..end].copy_from_slice(body);
            return end;
        }
        at
    }
}

impl<'a> JudgedFile<'a> {
    pub(crate) fn put_bodies(&self, out: &mut [u8])
        requires { length (kept_bodies most_ports self.now.file.bytes.now self.now.file.count) ≤ length out.old }
        ensures { out.new ≡ kept_bodies most_ports self.now.file.bytes.now self.now.file.count ++ drop (length (kept_bodies most_ports self.now.file.bytes.now self.now.file.count)) out.old }
    {
        let mut at: usize = 0;
        // By number, as in WholeFile::judged.
        for k in 0..self.file.count {
            let body = Body { file: self.file, k };
            at = body.put_kept(self.judged.fate_of(k), at, out);
        }
    }
}
