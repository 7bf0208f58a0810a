// What a slot is to the pairs of a shelf.
ghost use Rattle.std.specs.Prelude.{◌≡◌, ◌<◌, ◌^◌, ℕ, not, eqb, get_or};
ghost use Rattle.std.specs.List.{list_any};
ghost use Rattle.frames.specs.Part.{most_ports};
ghost use Rattle.ledger.specs.Events.{meet, less, happened};

use ports::Table;

// The pairs that are asked, connected while asked, fresh and withdrawn, and those that wait after the slot: five tables, each in
// document 01's form.
#[derive(Clone, Copy)]
pub struct Events {
    pub asked: Table,
    pub connected: Table,
    pub fresh: Table,
    pub withdrawn: Table,
    pub waiting: Table,
}

fn meet(a: &Table, b: &Table) -> Table
    ensures { result ≡ meet most_ports a.now b.now }
{
    std::array::from_fn(|i| a[i] & b[i])
}

fn less(a: &Table, b: &Table) -> Table
    ensures { result ≡ less most_ports a.now b.now }
{
    std::array::from_fn(|i| a[i] & !b[i])
}

// A pair is in the table.
pub(crate) fn any(rows: &Table) -> bool
    ensures some { result ≡ list_any (λ row. not (eqb row 0)) rows.now }
    ensures small { (i : ℕ) → get_or rows.now i 0 < 2 ^ most_ports }
{
    rows.iter().any(|&row| row != 0)
}

#[tactic(auto, unfolding(crate::specs::Events::happened))]
pub(crate) fn happened(n: usize, waited: Table, asked: Table, connected: Table) -> Events
    ensures { result ≡ happened most_ports n waited asked connected }
{
    let asks = ports::within(n, asked);
    Events {
        asked: asks,
        connected: meet(&asks, &connected),
        fresh: less(&asks, &waited),
        withdrawn: less(&waited, &asks),
        waiting: less(&asks, &connected),
    }
}
