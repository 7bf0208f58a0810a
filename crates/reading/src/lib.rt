// A trace, read from a file: its contents, then a body at a time.
#![tactic(auto)]

ghost use Rattle.std.specs.Prelude.{◌≡◌, ◌≤◌, length, IfSome};

use outside::read_full;
use std::io::{Read, Seek, SeekFrom};
use trace_parts::{Described, Head, Layout};

// A trace in a file: its contents, which are read and sound, and the file, whose bodies are next.
#[derive(Drop)]
pub struct Trace<'a, R> {
    pub head: Head,
    pub contents: &'a [u8],
    file: &'a mut R,
}

impl<'a, R: Read> Trace<'a, R> {
    // None where the contents are damaged.
    pub fn read(file: &'a mut R, buf: &'a mut [u8]) -> Option<Trace<'a, R>>
        ensures { IfSome result (λ trace. length trace.contents.now ≤ length buf.old) }
    {
        let contents = read_contents(file, buf);
        let head = trace_parts::contents_head(contents).ok()?;
        Some(Trace {
            head,
            contents,
            file,
        })
    }

    // Zeros where there is none.
    pub fn entry(&self, k: usize) -> Described {
        trace_parts::read_entry(self.contents, k).unwrap_or_default()
    }

    // The next body, which is as long as its entry says, if all of it is there and sound.
    pub fn next<'b>(&mut self, read: Described, buf: &'b mut [u8]) -> Option<&'b [u8]>
        ensures { IfSome result (λ body. length body.now ≡ read.len) }
    {
        let len = read.len as usize;
        if buf.len() < len {
            return None;
        }
        let body = &mut buf[..len];
        if read_full(self.file, body) == len
            && trace_parts::body_sound(self.head.ports, read.entry.slots, body)
        {
            return Some(body);
        }
        None
    }

    // Whether the file ends here.
    pub fn at_end(&mut self) -> bool {
        read_full(self.file, &mut [0]) == 0
    }
}

impl<R: Read + Seek> Trace<'_, R> {
    // A body from where its entry says, as far as the file has it: what cannot be read counts as not there.
    pub fn body<'b>(&mut self, read: Described, buf: &'b mut [u8]) -> &'b [u8]
        ensures { length result.now ≤ length buf.old }
    {
        let len = read.len as usize;
        let place = u64::from(read.entry.offset);
        let found = self.file.seek(SeekFrom::Start(place));
        if buf.len() < len || !found.is_ok_and(|there| there == place) {
            return &[];
        }
        let end = read_full(self.file, &mut buf[..len]);
        &buf[..end]
    }
}

// As far as the file has so many bytes as its first three say; nothing where they say none, or more than there is room for.
fn read_contents<'a, R: Read>(file: &mut R, buf: &'a mut [u8]) -> &'a [u8]
    ensures { length result.now ≤ length buf.old }
{
    let mut head = [0; Layout::HEAD];
    let got = read_full(file, &mut head);
    let Some(size) = trace_parts::contents_size(&head[..got]) else {
        return &[];
    };
    if buf.len() < size {
        return &[];
    }
    buf[..Layout::HEAD].copy_from_slice(&head);
    let end = Layout::HEAD + read_full(file, &mut buf[Layout::HEAD..size]);
    &buf[..end]
}
