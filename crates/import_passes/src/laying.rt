// The second pass, which writes the bodies.
use crate::records::{Source, changed};
use captures::ByteOrder;
use import_steps::Import;
use std::fs::File;
use std::io::{Result, Write};

// What the records made so far, whether all could be laid, the open body, and where bodies go.
#[derive(Drop)]
struct Laying<'a> {
    order: ByteOrder,
    import: Import,
    sound: bool,
    body: &'a mut [u8],
    out: &'a File,
}

// Writes the open body, with its check. Its three stand apart, since the borrow checker covers no write through the field `out`.
fn put_body(p: Import, body: &mut [u8], out: &File) -> Result<()> {
    let size = trace_parts::body_size(p.state.ports, p.slots);
    if import_steps::close_body(p, body).is_err() || body.len() < size {
        return Err(changed());
    }
    let mut to = out;
    to.write_all(&body[..size])
}

impl Laying<'_> {
    // Those behind one that is no longer what it was are read and not laid: what the system refuses is told before that.
    fn take(&mut self, record: &[u8]) -> Result<()> {
        if !self.sound {
            return Ok(());
        }
        let p = self.import;
        let Ok(next) = import_steps::take_record(self.order, p, record) else {
            self.sound = false;
            return Ok(());
        };
        if import_steps::ends_body(p, next) {
            put_body(p, self.body, self.out)?;
        }
        self.sound = import_steps::lay_record(self.order, p, record, self.body).is_ok();
        self.import = next;
        Ok(())
    }
}

// Writes the bodies; whether the capture was what it was the first time. What the system refuses to read or write is an error.
pub fn lay(
    source: Source<'_>,
    start: Import,
    buf: &mut [u8],
    body: &mut [u8],
    out: &File,
) -> Result<bool> {
    let mut laying = Laying {
        order: source.order,
        import: start,
        sound: true,
        body,
        out,
    };
    let ended = source.each(2, start.state.ports, buf, |record| laying.take(record))?;
    if 0 < laying.import.slots {
        put_body(laying.import, laying.body, out)?;
    }
    Ok(ended & laying.sound)
}
