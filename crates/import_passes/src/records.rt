// A capture, record by record, and what the first pass takes of it.
use captures::ByteOrder;
use import_steps::Import;
use outside::Progress;
use refusals::Refusal;
use std::fs::File;
use std::io::{self, Error, Read};

// The file and its byte order, and where to say how far a pass is.
#[derive(Clone, Copy)]
pub struct Source<'a> {
    pub file: &'a File,
    pub order: ByteOrder,
    pub progress: Progress,
}

const MOST: usize = 65536;

// More pieces than a file has.
const PIECES: u64 = 1 << 48;

// The capture is not as it was read the first time.
pub fn changed() -> Error {
    Error::other("changed while it was read")
}

impl Source<'_> {
    // How many MiB of a pass are done, now and then.
    fn say(self, pass: u64, piece: u64) {
        if piece % 64 == 0 {
            let done = piece / 16;
            self.progress
                .say(format_args!("pass {pass} of 2: {done} MiB"));
        }
    }

    // Whether the file is at its end; an error where it cannot be read.
    fn ended(self) -> io::Result<bool> {
        let mut from = self.file;
        Ok(from.read(&mut [0])? == 0)
    }

    // Hands on the records of n ports from here on, piece by piece; the last may be cut. Whether the file ended behind them; what the system
    // refuses to read is an error.
    pub(crate) fn each<F: FnMut(&[u8]) -> io::Result<()>>(
        self,
        pass: u64,
        n: usize,
        buf: &mut [u8],
        mut take: F,
    ) -> io::Result<bool>
        requires { F.IsAlwaysCallable take }
    {
        let len = captures::record_len(n);
        // Whole records.
        let most = (MOST / len * len).min(buf.len());
        let mut from = self.file;
        for k in 0..PIECES {
            self.say(pass, k);
            let got = outside::read_full(&mut from, &mut buf[..most]);
            for record in buf[..got].chunks(len) {
                take(record)?;
            }
            // A piece that is short is the last.
            if got < most {
                return self.ended();
            }
        }
        Ok(true)
    }
}

// The first pass: what its records make, with the first slot of each body, and how many it has; or why one is declined. Those behind it
// are read too: an error goes before.
pub fn scan(
    source: Source<'_>,
    start: Import,
    buf: &mut [u8],
    firsts: &mut [u32],
    slots: &mut [u16],
) -> io::Result<Result<Import, Refusal>> {
    let mut known = Ok(start);
    let ended = source.each(1, start.state.ports, buf, |record| {
        let Ok(before) = known else {
            return Ok(());
        };
        known = import_steps::take_record(source.order, before, record);
        if let Ok(now) = known {
            import_steps::note_body(now, firsts, slots);
        }
        Ok(())
    })?;
    if ended {
        return Ok(known);
    }
    Err(changed())
}
