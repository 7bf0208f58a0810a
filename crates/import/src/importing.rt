// The import of a capture.
use crate::telling::{decline, tell_end};
use captures::ByteOrder;
use import_passes::{Source, changed};
use import_steps::Import;
use outside::{Progress, Streams, read_full};
use refusals::Refusal;
use std::fs::File;
use std::io::{self, IsTerminal, Seek, Write};
use std::rt::Files;
use trace_parts::Layout;

// Reads the header, from the file's beginning.
fn read_header(file: &File) -> Result<ByteOrder, Refusal> {
    let mut from = file;
    let mut header = [0; ByteOrder::HEADER];
    if from.rewind().is_err() {
        return Err(Refusal::BadCapture);
    }
    let got = read_full(&mut from, &mut header);
    captures::read_header(&header[..got])
}

// From where on, and the names of the capture and of the trace.
#[derive(Clone, Copy)]
pub struct Importing<'a, R> {
    pub files: &'a R,
    pub to: Streams,
    pub start: Import,
    pub capture: &'a [u8],
    pub trace: &'a [u8],
}

impl<R: Files<File = File>> Importing<'_, R> {
    pub fn run(&self) -> io::Result<()> {
        match outside::open(self.files, self.capture) {
            Ok(file) => self.import_file(&file),
            Err(error) => self.to.fail(self.capture, error),
        }
    }

    fn import_file(&self, file: &File) -> io::Result<()> {
        let order = match read_header(file) {
            Ok(order) => order,
            Err(why) => return decline(self.to, self.capture, why),
        };
        let err = self.to.err;
        let progress = Progress {
            err,
            shown: err.is_terminal(),
        };
        self.import_records(Source {
            file,
            order,
            progress,
        })
    }

    // Both passes over a capture whose header is sound.
    fn import_records(&self, source: Source<'_>) -> io::Result<()> {
        let mut buf = outside::large_buffer();
        let mut firsts = [0; Layout::BODIES];
        let mut slots = [0; Layout::BODIES];
        let scanned = import_passes::scan(source, self.start, &mut buf, &mut firsts, &mut slots);
        source.progress.end();
        let known = match scanned {
            Ok(Ok(known)) => known,
            Ok(Err(why)) => return decline(self.to, self.capture, why),
            Err(error) => return self.to.fail(self.capture, error),
        };
        let bodies = known.bodies as usize;
        if bodies <= Layout::BODIES {
            return self.make_trace(source, known, &firsts[..bodies], &slots[..bodies]);
        }
        Ok(())
    }

    // Makes the file; one that is there already is not overwritten, so that no capture is lost. What cannot be written whole is removed.
    fn make_trace(
        &self,
        source: Source<'_>,
        known: Import,
        firsts: &[u32],
        slots: &[u16],
    ) -> io::Result<()> {
        let made = match outside::create(self.files, self.trace) {
            Ok(made) => made,
            Err(error) => return self.to.fail(self.trace, error),
        };
        let written = self.write_trace(source, firsts, slots, &made);
        source.progress.end();
        match written {
            Ok(()) => tell_end(self.to.out, known),
            Err(error) => {
                outside::abandon(self.files, made, self.trace);
                self.to.fail(self.trace, error)
            }
        }
    }

    // Contents and bodies. The library doesn't say how a file was closed, so that is asked before; what it refuses is told before a change.
    fn write_trace(
        &self,
        source: Source<'_>,
        firsts: &[u32],
        slots: &[u16],
        out: &File,
    ) -> io::Result<()> {
        let mut buf = outside::large_buffer();
        let mut body = outside::large_buffer();
        let n = self.start.state.ports;
        if trace_writer::write_contents(n, firsts, slots, &mut body).is_err() {
            return Err(changed());
        }
        let Some(size) = trace_parts::contents_size(&body) else {
            return Err(changed());
        };
        // The records are behind it; what it says is known.
        let _ = read_header(source.file);
        let mut to = out;
        to.write_all(&body[..size])?;
        let same = import_passes::lay(source, self.start, &mut buf, &mut body, out)?;
        out.sync_all()?;
        if same {
            return Ok(());
        }
        Err(changed())
    }
}
