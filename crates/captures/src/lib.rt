// Packet captures: the header of a classic libpcap file, and the packet in a record.
#![tactic(auto)]

mod header;
mod number;
mod packet;

pub use header::read_header;
pub use number::ByteOrder;
pub use packet::{Packet, packet_len, read_packet, record_len};
