// Rules 1 and 2: what of the hosts' fields counts.
#![tactic(auto)]

ghost use Rattle.std.specs.Prelude.{◌≡◌, cond, ◌≤◌, get_or};
ghost use Rattle.frames.specs.Part.{most_ports};
ghost use Rattle.laws.specs.Sets.{has, tabled};
ghost use Rattle.ports.specs.Owners.{among};
ghost use Rattle.hearing.specs.Heard.{tables};
ghost use Rattle.hearing.specs.Votes.{heeded, cast, Present};

use ports::{Set, State, Table, at_most};
use words::{holds, minus};

// The requests and the planned claims of all hosts. Two tables, for rules 3 to 6 take each as one (document 01).
#[derive(Clone, Copy)]
pub struct Tables {
    pub req: Table,
    pub pre: Table,
}

// The heard hosts whom nobody has cleared so far, and those whom at most one host has.
#[derive(Clone, Copy)]
pub struct Votes {
    pub uncleared: Set,
    pub enabled: Set,
}

// The ports in s that are of port i's operator.
fn among(owners: Set, i: usize, s: Set) -> Set
    ensures { result ≡ among owners i s }
{
    if holds(owners, i) {
        s & owners
    } else {
        minus(s, owners)
    }
}

// With the vote of host h, if it is heard; it lets through whoever is of the other operator.
fn vote(votes: Votes, owners: Set, heard: Set, ben: Set, h: usize) -> Votes
    ensures { result ≡ cond (has heard h) (cast (heeded owners heard ben h) votes) votes }
{
    if holds(heard, h) {
        let ballot = ben | (heard - among(owners, h, heard));
        Votes {
            uncleared: votes.uncleared & ballot,
            enabled: (votes.enabled & ballot) | votes.uncleared,
        }
    } else {
        votes
    }
}

// By index, for a host votes by its number, and rows from n on are nobody's.
#[tactic(auto, using(laws::proofs::Loops::again, laws::proofs::Loops::none))]
fn present(n: usize, owners: Set, heard: Set, ben: Table) -> Set
    requires { n ≤ most_ports }
    ensures { Present n owners heard ben result }
{
    let mut votes = Votes {
        uncleared: heard,
        enabled: heard,
    };
    for h in 0..n {
        votes = vote(votes, owners, heard, ben[h], h);
    }
    votes.enabled
}

// What counts of a row of host i.
fn row_of(owners: Set, present: Set, row: Set, i: usize) -> Set
    ensures { result ≡ cond (has present i) (among owners i row) 0 }
{
    if holds(present, i) {
        among(owners, i, row)
    } else {
        0
    }
}

// By index, for the rows from n on stay empty.
fn rows_of(n: usize, owners: Set, present: Set, rows: &Table) -> Table
    requires { n ≤ most_ports }
    ensures { result ≡ tabled most_ports (λ i. cond (has present i) (among owners i (get_or rows.now i 0)) 0) n }
{
    let mut table = State::empty_table();
    for i in 0..n {
        table[i] = row_of(owners, present, rows[i], i);
    }
    table
}

// Both tables as they count: towards one's own operator's ports, and empty for a host that is unheard or disabled.
pub fn counted(ports: usize, owners: Set, heard: Set, ben: Table, req: Table, pre: Table) -> Tables
    ensures { result ≡ tables ports owners heard ben req pre }
{
    let n = at_most(ports);
    let present = present(n, owners, heard, ben);
    Tables {
        req: rows_of(n, owners, present, &req),
        pre: rows_of(n, owners, present, &pre),
    }
}
