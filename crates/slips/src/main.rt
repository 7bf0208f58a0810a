// Small slots, each of which refuses a slip that cases A to I let pass. A line has its label, the number, the rounds, the next
// offsets, the next slot due and the sets. The rows of req, pre and ben are a hexadecimal digit each, row 0 the last.
#![tactic(auto)]

use ports::{Matched, Mode, Served, Set, State, Table};
use shown::{SLOT, at, due_at, rows};
use std::io::Result;

// A call for a slot: the shelf's state, the slot and its mode, and what counts of what the hosts ask and plan.
#[derive(Clone, Copy)]
struct Slip {
    state: State,
    slot: u32,
    mode: Mode,
    req: Table,
    pre: Table,
}

impl Slip {
    // Of n ports at offsets (i, j), in the slot that is due and the central form; nobody plans.
    fn at(n: usize, i: usize, j: usize, req: u16) -> Slip {
        Slip {
            state: at(n, i, j),
            slot: SLOT,
            mode: Mode::Central,
            req: rows(req),
            pre: State::empty_table(),
        }
    }

    // Of three ports, in a slot with this number while another may be due.
    fn numbered(due: u32, slot: u32) -> Slip {
        Slip {
            state: due_at(3, 1, 2, due),
            slot,
            ..Slip::at(3, 1, 2, 0x1)
        }
    }

    fn planning(self, pre: u16) -> Slip {
        Slip {
            pre: rows(pre),
            ..self
        }
    }

    fn in_rounds(self, limit: u32) -> Slip {
        Slip {
            mode: Mode::Distributed(limit),
            ..self
        }
    }

    fn diagonal_first(self) -> Slip {
        Slip {
            mode: Mode::Diagonal,
            ..self
        }
    }

    // What counts where these hosts are heard and these ports are operator 1's.
    fn heard(self, owners: Set, heard: Set, ben: u16) -> Slip {
        let counted = hearing::counted(
            self.state.ports,
            owners,
            heard,
            rows(ben),
            self.req,
            self.pre,
        );
        let req = counted.req;
        let pre = counted.pre;
        Slip { req, pre, ..self }
    }

    // A slot that is declined leaves the state as it was.
    fn show(self, rt: &impl Print, label: u64) -> Result<()> {
        let kept = Served {
            state: self.state,
            matched: Matched {
                rounds: 0,
                sets: State::empty_table(),
            },
        };
        let (number, after) = match lcf::slot_on_tables(
            self.state, self.slot, self.mode, self.req, self.pre,
        ) {
            Ok(served) => (0, served),
            Err(why) => (why.number(), kept),
        };
        let rounds = after.matched.rounds;
        let i = after.state.initiator.0;
        let j = after.state.target.0;
        let due = after.state.due;
        print!(rt; "{label} {number} {rounds} {i} {j} {due}")?;
        shown::sets(rt, self.state.ports, after.matched.sets)
    }
}

fn planned(rt: &impl Print) -> Result<()> {
    // A target's rotation of its claimants starts at I only for target J; the first claimant is kept.
    Slip::at(2, 0, 0, 0).planning(0x22).show(rt, 1)?;
    // It starts at (I + t - J), not at (J + t - I).
    Slip::at(3, 0, 1, 0).planning(0x404).show(rt, 2)?;
    // Nor at (I + t).
    Slip::at(2, 0, 1, 0).planning(0x22).show(rt, 3)?;
    // An initiator with a planned target asks for no more.
    Slip::at(2, 0, 0, 0x20).planning(0x10).show(rt, 4)?;
    // A target that is given is asked for no more.
    Slip::at(2, 0, 0, 0x1).planning(0x10).show(rt, 5)?;
    // An initiator whose claims were all dropped stays in.
    Slip::at(2, 0, 0, 0x1).planning(0x22).show(rt, 6)
}

fn central(rt: &impl Print) -> Result<()> {
    // Counts fall as targets go.
    Slip::at(3, 0, 0, 0x246).show(rt, 7)?;
    // Among equals the first in the rotation wins.
    Slip::at(3, 0, 0, 0x44).show(rt, 8)?;
    // The rotation of the ties moves with the target.
    Slip::at(3, 0, 0, 0x202).show(rt, 9)
}

fn favour(rt: &impl Print) -> Result<()> {
    // So does the favoured initiator.
    Slip::at(2, 0, 0, 0x22).show(rt, 10)?;
    // The targets are served from J on.
    Slip::at(2, 0, 1, 0x11).show(rt, 11)?;
    // The favoured initiator wins whatever it asks.
    Slip::at(2, 0, 0, 0x13).show(rt, 12)?;
    // Otherwise the one with the fewest requests wins.
    Slip::at(3, 0, 0, 0x130).show(rt, 13)?;
    // Not only the favoured pair is joined.
    Slip::at(2, 0, 0, 0x20).show(rt, 14)?;
    // Bits at or above n do not count.
    Slip::at(3, 0, 0, 0x190).show(rt, 15)
}

fn grants(rt: &impl Print) -> Result<()> {
    // A grant's rotation moves with the target; the first of equals is granted.
    Slip::at(2, 0, 0, 0x22).in_rounds(1).show(rt, 16)?;
    // It starts at (I + t - J), not at (J + t - I).
    Slip::at(3, 0, 1, 0x44).in_rounds(1).show(rt, 17)?;
    // Nor at (I + t).
    Slip::at(2, 0, 1, 0x11).in_rounds(1).show(rt, 18)?;
    // The asker with the fewest requests is granted.
    Slip::at(2, 0, 0, 0x32).in_rounds(1).show(rt, 19)
}

fn accepts(rt: &impl Print) -> Result<()> {
    // An accept's rotation moves with the initiator; the first of equals is accepted.
    Slip::at(2, 0, 0, 0x30).in_rounds(1).show(rt, 20)?;
    // It starts at (J + i - I), not at (I + i - J).
    Slip::at(3, 1, 0, 0x3).in_rounds(1).show(rt, 21)?;
    // Nor at (J + i).
    Slip::at(2, 1, 0, 0x3).in_rounds(1).show(rt, 22)?;
    // The target with the fewest askers at the round's start is accepted.
    Slip::at(3, 0, 0, 0x506).in_rounds(1).show(rt, 23)
}

fn rounds_run(rt: &impl Print) -> Result<()> {
    // A round's matches free nobody within it.
    Slip::at(3, 0, 0, 0x132).in_rounds(1).show(rt, 24)?;
    // The favoured pair is joined before any round.
    Slip::at(2, 0, 0, 0x1).in_rounds(1).show(rt, 25)?;
    // The limit ends the rounds.
    Slip::at(3, 0, 0, 0x606).in_rounds(1).show(rt, 26)?;
    // A later round works as the first.
    Slip::at(3, 0, 0, 0x606).in_rounds(2).show(rt, 27)?;
    // Where no request is live no round is run or counted.
    Slip::at(3, 0, 0, 0x606).in_rounds(16).show(rt, 28)
}

fn heard(rt: &impl Print) -> Result<()> {
    // An unheard host asks for nothing and has no vote: hosts 1 and 2 clear bit 0, and host 2 is unheard.
    Slip::at(3, 0, 0, 0x421).heard(0, 0b11, 0x667).show(rt, 29)?;
    // A disabled initiator still has its vote: 0 and 1 vote against each other, and 2 against both.
    Slip::at(3, 0, 0, 0x421)
        .heard(0, 0b111, 0x465)
        .show(rt, 30)?;
    // It plans nothing.
    Slip::at(3, 0, 0, 0)
        .planning(0x022)
        .heard(0, 0b111, 0x667)
        .show(rt, 31)
}

fn slot_numbers(rt: &impl Print) -> Result<()> {
    // Slot 5 when 5 is due.
    Slip::numbered(5, 5).show(rt, 32)?;
    // The same again: number 3, and the state stays.
    Slip::numbered(6, 5).show(rt, 33)?;
    // Slot 7 when 6 is due: number 4.
    Slip::numbered(6, 7).show(rt, 34)?;
    // The difference is modulo 2^32.
    Slip::numbered(0, 4294967295).show(rt, 35)?;
    // 2147483648 behind is stale,
    Slip::numbered(0, 2147483648).show(rt, 36)?;
    // and one more is early.
    Slip::numbered(0, 2147483647).show(rt, 37)?;
    // After 4294967295 comes 0.
    Slip::numbered(4294967295, 4294967295).show(rt, 38)
}

fn offsets(rt: &impl Print) -> Result<()> {
    // (2, 0) goes to (0, 1),
    Slip::at(3, 2, 0, 0x1).show(rt, 39)?;
    // and (2, 2) to (0, 0).
    Slip::at(3, 2, 2, 0x1).show(rt, 40)?;
    // An offset at n: number 2.
    Slip::at(3, 3, 0, 0x1).show(rt, 41)?;
    // So for J.
    Slip::at(3, 0, 3, 0x1).show(rt, 42)?;
    // Ports outside 1 to 16: number 1.
    Slip::at(0, 0, 0, 0x1).show(rt, 43)?;
    // 17 are too many,
    Slip::at(17, 0, 0, 0x1).show(rt, 44)?;
    // and 16 are taken.
    Slip::at(16, 0, 0, 0x1).show(rt, 45)
}

fn limits(rt: &impl Print) -> Result<()> {
    // A limit outside 1 to 16: number 5.
    Slip::at(3, 0, 0, 0x1).in_rounds(0).show(rt, 46)?;
    // 17 is too many,
    Slip::at(3, 0, 0, 0x1).in_rounds(17).show(rt, 47)?;
    // and 16 is taken.
    Slip::at(3, 0, 0, 0x1).in_rounds(16).show(rt, 48)
}

fn one_vote(rt: &impl Print) -> Result<()> {
    // One host alone disables nobody, whatever it clears.
    Slip::at(3, 0, 0, 0x421).heard(0, 0b111, 0x770).show(rt, 49)
}

fn diagonal(rt: &impl Print) -> Result<()> {
    // The diagonal begins at (I, J), not at (J, I).
    Slip::at(3, 1, 0, 0x702).diagonal_first().show(rt, 50)?;
    // The central form serves the rest.
    Slip::at(2, 0, 0, 0x2).diagonal_first().show(rt, 51)?;
    // A pair whose request is not live is not joined.
    Slip::at(2, 0, 0, 0x20)
        .planning(0x2)
        .diagonal_first()
        .show(rt, 52)
}

// Four hosts, all heard; ports 2 and 3 are operator 1's.
fn operators(rt: &impl Print) -> Result<()> {
    // Votes of the other operator's hosts do not count,
    Slip::at(4, 0, 0, 0x0001)
        .heard(0b1100, 0b1111, 0xeeff)
        .show(rt, 53)?;
    // and those of one's own do.
    Slip::at(4, 0, 0, 0x0001)
        .heard(0b1100, 0b1111, 0xffee)
        .show(rt, 54)?;
    // Who plans another operator's port plans nothing, and asks.
    Slip::at(4, 0, 0, 0x0420)
        .planning(0x0200)
        .heard(0b1100, 0b1111, 0xffff)
        .show(rt, 55)?;
    // Requests for another operator's ports do not count where the fewest win.
    Slip::at(4, 1, 0, 0x002e)
        .heard(0b1100, 0b1111, 0xffff)
        .show(rt, 56)
}

fn main(rt: HostRuntime) -> Result<()> {
    let rt = &rt;
    planned(rt)?;
    central(rt)?;
    favour(rt)?;
    grants(rt)?;
    accepts(rt)?;
    rounds_run(rt)?;
    heard(rt)?;
    slot_numbers(rt)?;
    offsets(rt)?;
    limits(rt)?;
    one_vote(rt)?;
    diagonal(rt)?;
    operators(rt)
}
