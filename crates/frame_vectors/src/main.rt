// Runs frame vectors through the public calls, and writes what each answers: the documents' number, then the fields or the bytes.
#![tactic(auto)]

use frames::{Config, Grant, Held};
use refusals::{Refusal, number_of};
use std::io::Result;

fn hex(rt: &impl Print, s: &[u8]) -> Result<()> {
    for b in s {
        print!(rt; "{b:02x}")?;
    }
    Ok(())
}

fn crc(rt: &impl Print, s: &[u8]) -> Result<()> {
    let crc = words::crc(s);
    println!(rt; "crc {crc:04x}")
}

fn config(rt: &impl Print, frame: &[u8]) -> Result<()> {
    let zeros = Config {
        req: 0,
        pre: 0,
        ben: 0,
        qen: 0,
    };
    let read = frames::read_config(frame);
    let number = number_of(read);
    let Config { req, pre, ben, qen } = read.unwrap_or(zeros);
    println!(rt; "config {number} {req} {pre} {ben} {qen}")
}

fn written(rt: &impl Print, done: std::result::Result<(), Refusal>, out: &[u8]) -> Result<()> {
    let number = number_of(done);
    print!(rt; " written {number} ")?;
    hex(rt, out)?;
    println!(rt; "")
}

fn write_config(
    rt: &impl Print,
    req: u16,
    pre: u16,
    ben: u16,
    qen: u16,
    out: &mut [u8],
) -> Result<()> {
    print!(rt; "config")?;
    let done = frames::write_config(Config { req, pre, ben, qen }, out);
    written(rt, done, out)
}

fn grant(rt: &impl Print, frame: &[u8]) -> Result<()> {
    let zeros = Grant {
        nodeid: 0,
        gnt: 0,
        gntval: false,
        linkerr: false,
        crcerr: false,
    };
    let read = frames::read_grant(frame);
    let number = number_of(read);
    let g = read.unwrap_or(zeros);
    let [gntval, linkerr, crcerr] = [g.gntval, g.linkerr, g.crcerr].map(u8::from);
    println!(rt;
        "grant {number} {} {} {gntval} {linkerr} {crcerr}",
        g.nodeid, g.gnt
    )
}

fn held(rt: &impl Print, frame: &[u8]) -> Result<()> {
    let zeros = Held {
        nodeid: 0,
        gntval: false,
        linkerr: false,
        crcerr: false,
        set: 0,
    };
    let read = frames::read_held(frame);
    let number = number_of(read);
    let g = read.unwrap_or(zeros);
    let [gntval, linkerr, crcerr] = [g.gntval, g.linkerr, g.crcerr].map(u8::from);
    println!(rt;
        "held {number} {} {gntval} {linkerr} {crcerr} {}",
        g.nodeid, g.set
    )
}

// The flags as in the frame: gntVal, linkErr and CRCErr in bits 0, 1 and 2.
fn write_held(rt: &impl Print, nodeid: u8, flags: u8, set: u16, out: &mut [u8]) -> Result<()> {
    let held = Held {
        nodeid,
        gntval: flags % 2 == 1,
        linkerr: flags / 2 % 2 == 1,
        crcerr: flags / 4 % 2 == 1,
        set,
    };
    print!(rt; "held")?;
    let done = frames::write_held(held, out);
    written(rt, done, out)
}

fn host(rt: &impl Print, n: usize, h: usize, block: &[u8]) -> Result<()> {
    let mut number = 255u8;
    let part = frames::host_frame(n, h, block, &mut number);
    print!(rt; "host {number}")?;
    if 0 < part.len() {
        print!(rt; " ")?;
        hex(rt, part)?;
    }
    println!(rt; "")
}

// The check of the catalogue, and of nothing.
fn crcs(rt: &impl Print) -> Result<()> {
    crc(rt, b"123456789")?;
    crc(rt, b"")
}

// Valid, damaged, short, long, of another type, and missing.
fn configs(rt: &impl Print) -> Result<()> {
    config(rt, b"\x01\x01\x02\x80\x03\xff\xff\x00\xf0\x85\x4c")?;
    config(rt, b"\x01\x00\x00\x00\x00\x00\x00\x00\x00\xf3\x51")?;
    config(rt, b"\x01\xff\xff\xff\xff\xff\xff\xff\xff\x55\xb0")?;
    config(rt, b"\x01\x01\x02\x80\x02\xff\xff\x00\xf0\x85\x4c")?;
    config(rt, b"\x01\x01\x02\x80\x03\xff\xff\x00\xf0\x05\x4c")?;
    config(rt, b"\x01\x01\x02\x80\x03\xff\xff\x00\xf0\x4c\x85")?;
    config(rt, b"\x01\x01\x02\x80\x03\xff\xff\x00\xf0\x85")?;
    config(rt, b"\x01\x01\x02\x80\x03\xff\xff\x00\xf0\x85\x4c\x00")?;
    config(rt, b"")?;
    config(rt, b"\x02\x01\x02\x80\x03\xff\xff\x00\xf0\xa8\x08")?;
    config(rt, b"\x02\x01\x02\x80\x03\xff\xff\x00\xf0\x85")?;
    config(rt, b"\x00\x00\x00\x00\x00\x00\x00\x00\x00\x00\x00")
}

// With room, with more, and with too little.
fn written_configs(rt: &impl Print) -> Result<()> {
    let mut out11 = [0xAAu8; 11];
    write_config(rt, 258, 32771, 65535, 240, &mut out11)?;
    let mut out13 = [0xAAu8; 13];
    write_config(rt, 1, 2, 4, 32768, &mut out13)?;
    let mut out10 = [0xAAu8; 10];
    write_config(rt, 1, 2, 4, 8, &mut out10)
}

// Of type 2: valid, damaged, short, long, of another type, and out of form.
fn grants(rt: &impl Print) -> Result<()> {
    grant(rt, b"\x02\x35\x05\x08\x39")?;
    grant(rt, b"\x02\xff\x03\x91\x60")?;
    grant(rt, b"\x02\x00\x00\xa2\xfc")?;
    grant(rt, b"\x02\x35\x05\x08\x38")?;
    grant(rt, b"\x02\x35\x05\x08")?;
    grant(rt, b"\x02\x35\x05\x08\x39\x00")?;
    grant(rt, b"\x01\x35\x05\x51\x69")?;
    grant(rt, b"\x02\x35\x09\xc9\xb5")?;
    grant(rt, b"\x02\x35\x04\x18\x18")
}

// Of type 3: valid, damaged, short, long, of another type, and out of form.
fn helds(rt: &impl Print) -> Result<()> {
    held(rt, b"\x03\x03\x05\x12\x34\x9c\x34")?;
    held(rt, b"\x03\x0f\x03\xff\xff\x6f\x6f")?;
    held(rt, b"\x03\x07\x06\x00\x00\x1c\x53")?;
    held(rt, b"\x03\x00\x00\x00\x00\xff\xde")?;
    held(rt, b"\x03\x03\x05\x12\x34\x9c\x35")?;
    held(rt, b"\x03\x03\x05\x12\x34\x9c")?;
    held(rt, b"\x03\x03\x05\x12\x34\x9c\x34\x00")?;
    held(rt, b"\x02\x03\x05\x12\x34\x36\x65")?;
    held(rt, b"\x03\x03\x09\x12\x34\xe9\x55")?;
    held(rt, b"\x03\x03\x81\x12\x34\x7b\xae")?;
    held(rt, b"\x03\x10\x05\x12\x34\x1c\x4f")?;
    held(rt, b"\x03\x03\x04\x12\x34\xab\x04")?;
    held(rt, b"\x03\x03\x05\x00\x00\x8f\xf2")
}

// With room, with more and with too little; and out of form, which comes before too little room.
fn written_helds(rt: &impl Print) -> Result<()> {
    let mut whole = [0xAAu8; 7];
    write_held(rt, 3, 5, 4660, &mut whole)?;
    let mut more = [0xAAu8; 9];
    write_held(rt, 15, 2, 0, &mut more)?;
    let mut less = [0xAAu8; 6];
    write_held(rt, 0, 0, 0, &mut less)?;
    let mut kept = [0xAAu8; 7];
    write_held(rt, 16, 0, 0, &mut kept)?;
    write_held(rt, 0, 1, 0, &mut kept)?;
    write_held(rt, 0, 0, 1, &mut kept)?;
    write_held(rt, 16, 0, 0, &mut less)
}

// Found; and n, the block and h out of range.
fn hosts(rt: &impl Print) -> Result<()> {
    let block =
        b"\x00\x01\x02\x03\x04\x05\x06\x07\x08\x09\x0a\x0b\x0c\x0d\x0e\x0f\x10\x11\x12\x13\x14\x15\x16\x17\x18\x19\x1a\x1b\x1c\x1d\x1e\x1f\x20";
    host(rt, 3, 0, block)?;
    host(rt, 3, 1, block)?;
    host(rt, 3, 2, block)?;
    host(rt, 3, 3, block)?;
    host(rt, 3, 18446744073709551615, block)?;
    host(rt, 0, 0, block)?;
    host(rt, 17, 0, block)?;
    host(rt, 18446744073709551615, 0, block)?;
    host(rt, 2, 0, block)?;
    host(rt, 4, 0, block)?;
    host(rt, 4, 9, block)?;
    host(rt, 17, 17, block)
}

fn main(rt: HostRuntime) -> Result<()> {
    let rt = &rt;
    crcs(rt)?;
    configs(rt)?;
    written_configs(rt)?;
    grants(rt)?;
    helds(rt)?;
    written_helds(rt)?;
    hosts(rt)
}
