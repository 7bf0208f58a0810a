// A file of sound contents, and its bodies.
ghost use Rattle.std.specs.Prelude.{◌≡◌, false, ◌<◌, MatchResult};
ghost use Rattle.laws.specs.Parts.{part};
ghost use Rattle.refusals.specs.Numbers.{number};
ghost use Rattle.frames.specs.Part.{most_ports};
ghost use Rattle.trace_parts.specs.Contents.{described, contents_sound};
ghost use Rattle.traces.specs.Trace.{body_at};
ghost use Rattle.salvages.specs.Whole.{Whole, judge_at, judged_of};

use body_fates::Judged;
use refusals::Refusal;
use trace_parts::Described;

// With its ports and its body count, by their own names: a head between would be named at each use and in the ghost field.
#[derive(Clone, Copy)]
pub(crate) struct WholeFile<'a> {
    pub(crate) bytes: &'a [u8],
    pub(crate) ports: usize,
    pub(crate) count: usize,
    ghost whole: { Whole most_ports bytes.now ports count },
}

// The len bytes from byte `at` on, as far as there are any.
fn part_of<'a>(s: &'a [u8], at: usize, len: usize) -> &'a [u8]
    ensures { result.now ≡ part at len s.now }
{
    if s.len() <= at {
        return &s[..0];
    }
    if s.len() - at < len {
        return &s[at..];
    }
    let end = at + len;
    &s[at..end]
}

// Body k of a file.
#[derive(Clone, Copy)]
pub(crate) struct Body<'a> {
    pub(crate) file: WholeFile<'a>,
    pub(crate) k: usize,
    ghost listed: { k < file.count },
}

// A file, and what becomes of its bodies.
#[derive(Clone, Copy)]
pub(crate) struct JudgedFile<'a> {
    pub(crate) file: WholeFile<'a>,
    pub(crate) judged: Judged,
    ghost of_file: { judged ≡ judged_of most_ports file.bytes.now file.count },
}

impl<'a> WholeFile<'a> {
    pub(crate) fn of(bytes: &'a [u8]) -> Result<WholeFile<'a>, Refusal>
        ensures { MatchResult result (λ file. file.bytes.now ≡ bytes.now) (λ why. (number why ≡ 14) × (contents_sound most_ports bytes.now ≡ false)) }
    {
        let head = trace_parts::contents_head(bytes)?;
        Ok(WholeFile {
            bytes,
            ports: head.ports,
            count: head.count,
        })
    }

    pub(crate) fn judged(&self) -> Judged
        ensures { result ≡ judged_of most_ports self.now.bytes.now self.now.count }
    {
        let mut judged = Judged::none();
        // By number: body k is read of the file by its number.
        for k in 0..self.count {
            let body = Body { file: *self, k };
            body.judge(&mut judged);
        }
        judged
    }
}

impl<'a> Body<'a> {
    fn entry(self) -> Described
        ensures { result ≡ described self.entry.file.bytes.now self.entry.k }
    {
        trace_parts::read_entry(self.file.bytes, self.k).unwrap_or_default()
    }

    // What the file has of it.
    pub(crate) fn bytes(self) -> &'a [u8]
        ensures { result.now ≡ body_at self.entry.file.bytes.now self.entry.k }
    {
        let read = self.entry();
        part_of(
            self.file.bytes,
            read.entry.offset as usize,
            read.len as usize,
        )
    }

    fn judge(self, judged: &mut Judged)
        ensures { judged.new ≡ judge_at most_ports self.entry.file.bytes.now self.entry.k judged.old }
    {
        let entry = self.entry().entry;
        judged.judge(self.file.ports, entry.first, entry.slots, self.bytes());
    }
}
