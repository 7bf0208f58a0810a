// Numbers of four bytes, in either byte order.
ghost use Rattle.std.specs.Prelude.{◌≡◌, ◌+◌, ◌≤◌, length};
ghost use Rattle.captures.specs.Capture.{low_first, long_in};

// The order in which the writer of a file put the bytes of a number.
#[derive(Clone, Copy, Debug, PartialEq, Eq)]
pub enum ByteOrder {
    LowFirst,
    HighFirst,
}

impl ByteOrder {
    // From byte `at` on.
    pub(crate) fn long_in(self, at: usize, s: &[u8]) -> u32
        requires { at + 4 ≤ length s.now }
        ensures { result ≡ long_in (low_first self) at s.now }
    {
        let (a, b, c, d) = (s[at], s[at + 1], s[at + 2], s[at + 3]);
        match self {
            ByteOrder::LowFirst => words::of_four(d, c, b, a),
            ByteOrder::HighFirst => words::of_four(a, b, c, d),
        }
    }
}
