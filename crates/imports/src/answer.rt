// What the import of a capture answers.

// The length of the trace, and the frames resent.
#[derive(Clone, Copy)]
pub struct Imported {
    pub length: usize,
    pub resent: u32,
}
