// Cases A to I of document 01.
#![tactic(auto)]

use ports::{Mode, State, Table};
use shown::{SLOT, at, rows};
use std::io::Result;

// A slot that is declined connects nothing.
fn show(
    rt: &impl Print,
    label: u8,
    state: State,
    mode: Mode,
    req: Table,
    pre: Table,
) -> Result<()> {
    let sets = match lcf::slot_on_tables(state, SLOT, mode, req, pre) {
        Ok(served) => served.matched.sets,
        Err(_) => State::empty_table(),
    };
    shown::letter(rt, label)?;
    shown::sets(rt, state.ports, sets)
}

// The rows of req, pre and ben are a hexadecimal digit each. In case G both hosts are heard, and host 1 clears ben bit 0.
fn main(rt: HostRuntime) -> Result<()> {
    let rt = &rt;
    let none = State::empty_table();
    show(rt, b'A', at(1, 0, 0), Mode::Central, rows(0x1), none)?;
    show(rt, b'B', at(3, 0, 0), Mode::Central, rows(0x613), none)?;
    show(rt, b'C', at(3, 2, 0), Mode::Central, rows(0x613), none)?;
    show(rt, b'D', at(3, 1, 2), Mode::Central, rows(0x605), none)?;
    show(rt, b'E', at(3, 0, 0), Mode::Central, rows(0x030), none)?;
    let claims = rows(0xa008);
    show(rt, b'F', at(4, 3, 1), Mode::Central, rows(0x0039), claims)?;
    let voted = hearing::counted(2, 0, 0b11, rows(0x23), rows(0x11), none);
    show(rt, b'G', at(2, 0, 0), Mode::Central, voted.req, voted.pre)?;
    let one_round = Mode::Distributed(1);
    show(rt, b'H', at(3, 0, 0), one_round, rows(0x613), none)?;
    let two_rounds = Mode::Distributed(2);
    show(rt, b'I', at(3, 2, 0), two_rounds, rows(0x473), none)
}
