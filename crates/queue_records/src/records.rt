// The records, as lent words: the ports, the cells of the pool, how many of them are held, and then an entry for each cell.
ghost use Rattle.std.specs.Prelude.{◌≡◌, ◌^◌, ◌<◌, get_or};
ghost use Rattle.frames.specs.Part.{most_ports};
ghost use Rattle.queue_records.specs.Records.{ports_of, cells_of, count_of};
ghost use Rattle.queue_records.specs.Order.{most_cells, cell_len, head_in_order, in_order, usable};

use crate::order::entries_in_order;
use ports::State;

// The greatest number of cells in a pool, and the bytes of a cell.
pub const MOST_CELLS: usize = 960;

pub const CELL_LEN: usize = 64;

// The words before the entries.
pub const HEAD_LEN: usize = 3;

#[derive(Clone, Copy)]
pub struct Records<'a> {
    pub words: &'a [u32],
}

impl<'a> Records<'a> {
    // Word k, and 0 where there are fewer, as the definitions of the records have it: it cannot fail.
    pub fn word(self, k: usize) -> usize
        ensures { (result ≡ get_or self.entry.words.now k 0) × (result < 2 ^ 32) }
    {
        self.words.get(k).copied().unwrap_or(0) as usize
    }

    pub fn ports(self) -> usize
        ensures { (result ≡ ports_of self.entry.words.now) × (result < 2 ^ 32) }
    {
        self.word(0)
    }

    pub fn cells(self) -> usize
        ensures { (result ≡ cells_of self.entry.words.now) × (result < 2 ^ 32) }
    {
        self.word(1)
    }

    pub fn held(self) -> usize
        ensures { (result ≡ count_of self.entry.words.now) × (result < 2 ^ 32) }
    {
        self.word(2)
    }

    fn head_in_order(self) -> bool
        ensures { result ≡ head_in_order most_ports most_cells self.entry.words.now }
    {
        let ports = self.ports();
        let cells = self.cells();
        ((1 <= ports) & (ports <= State::MOST))
            & (((1 <= cells) & (cells <= MOST_CELLS))
                & ((self.held() <= cells) & (self.words.len() == HEAD_LEN + cells)))
    }

    pub fn in_order(self) -> bool
        ensures { result ≡ in_order most_ports most_cells self.entry.words.now }
    {
        if self.head_in_order() {
            return entries_in_order(&self.words[HEAD_LEN..], self.ports(), self.cells());
        }
        false
    }

    // They are in order, and a pool of so many bytes is the one that they were made for.
    pub fn usable(self, len: usize) -> bool
        ensures { result ≡ usable most_ports most_cells cell_len self.entry.words.now len }
    {
        if self.in_order() {
            return len == self.cells() * CELL_LEN;
        }
        false
    }
}
