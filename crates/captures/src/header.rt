// The header of a capture.
ghost use Rattle.std.specs.Prelude.{◌≡◌, ◌≤◌, length};
ghost use Rattle.refusals.specs.Numbers.{answer_of};
ghost use Rattle.captures.specs.Capture.{header_len, magic_order, header_read};
ghost use Rattle.captures.specs.declared.number.ByteOrder.TheVariants.{HighFirst};

use crate::number::ByteOrder;
use refusals::Refusal;

impl ByteOrder {
    // The bytes of the header that tells the order.
    pub const HEADER: usize = 24;
}

const MAGIC: u32 = 0xA1B2C3D4;

const LINK_TYPE: u32 = 147;

// The order in which the magic number stands there.
fn magic_order(s: &[u8]) -> Option<ByteOrder>
    requires { header_len ≤ length s.now }
    ensures { result ≡ magic_order s.now }
{
    if ByteOrder::LowFirst.long_in(0, s) == MAGIC {
        return Some(ByteOrder::LowFirst);
    }
    if ByteOrder::HighFirst.long_in(0, s) == MAGIC {
        return Some(ByteOrder::HighFirst);
    }
    None
}

// Of a file that starts so: the byte order of its numbers.
pub fn read_header(start: &[u8]) -> Result<ByteOrder, Refusal>
    ensures { answer_of HighFirst result ≡ header_read start.now }
{
    if start.len() < ByteOrder::HEADER {
        return Err(Refusal::BadCapture);
    }
    let Some(order) = magic_order(start) else {
        return Err(Refusal::BadCapture);
    };
    if order.long_in(20, start) % 268435456 == LINK_TYPE {
        return Ok(order);
    }
    Err(Refusal::BadCapture)
}
