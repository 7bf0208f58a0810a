// The packet in a record of a capture.
ghost use Rattle.std.specs.Prelude.{◌≡◌, ◌≤◌};
ghost use Rattle.captures.specs.Capture.{packet_len, record_len, low_first, packet_in};

use crate::number::ByteOrder;
use frames::Config;

// The captured length, the slot and the host.
#[derive(Clone, Copy)]
pub struct Packet {
    pub captured: u32,
    pub slot: u32,
    pub host: u8,
}

impl Packet {
    // Where slot, host and frame stand in a record.
    pub const SLOT: usize = 16;

    pub const HOST: usize = 20;

    pub const FRAME: usize = 21;
}

pub fn packet_len(n: usize) -> u32
    ensures { result ≡ packet_len n }
{
    5 + Config::LEN as u32
}

pub fn record_len(n: usize) -> usize
    ensures { (result ≡ record_len n) × (21 ≤ result) × (result ≤ 64) }
{
    Packet::SLOT + packet_len(n) as usize
}

// Zeros, and no refusal, where the bytes are too few, since it can't fail.
pub fn read_packet(order: ByteOrder, bytes: &[u8]) -> Packet
    ensures { result ≡ packet_in (low_first order) bytes.now }
{
    if bytes.len() < Packet::FRAME {
        return Packet {
            captured: 0,
            slot: 0,
            host: 0,
        };
    }
    Packet {
        captured: order.long_in(8, bytes),
        slot: ByteOrder::HighFirst.long_in(Packet::SLOT, bytes),
        host: bytes[Packet::HOST],
    }
}
