// A capture of whole records, to be imported.
ghost use Rattle.std.specs.Prelude.{◌≤◌, length};
ghost use Rattle.frames.specs.Part.{most_ports};
ghost use Rattle.captures.specs.Capture.{header_len};
ghost use Rattle.import_steps.specs.Taking.{known};
ghost use Rattle.imports.specs.Passes.{Fresh};

use captures::ByteOrder;
use import_steps::Import;

// The byte order that its header tells, what is known before its first record, and its bytes, which start with the header.
#[derive(Clone, Copy)]
pub(crate) struct Capture<'a> {
    pub order: ByteOrder,
    pub start: Import,
    pub bytes: &'a [u8],
    ghost fresh: { Fresh most_ports (known start) },
    ghost headed: { header_len ≤ length bytes.now },
}
