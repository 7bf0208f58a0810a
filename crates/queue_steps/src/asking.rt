// Which queues hold cells, as requests.
ghost use Rattle.std.specs.Prelude.{◌≡◌, cond, ◌+◌, ◌*◌, ◌%◌, ◌<◌, ◌≤◌, eqb, length};
ghost use Rattle.frames.specs.Part.{most_ports};
ghost use Rattle.laws.specs.Sets.{with, gathered, tabled};
ghost use Rattle.queue_records.specs.Records.{head_len, count_of};
ghost use Rattle.queue_records.specs.Marks.{marked, met};
ghost use Rattle.queue_steps.specs.Asking.{pairs, pair_of};
ghost use Rattle.queue_steps.specs.Step.{requests};

use ports::{Set, State, Table, Target};
use queue_records::{HEAD_LEN, Records};

const PAIRS: usize = State::MOST * State::MOST;

// A byte for each pair: which pairs the entries are of. No heap, so no set; and a byte is written without being read, as a bit is not.
type Marks = [u8; PAIRS];

// One remainder, where Entry::from makes three numbers.
fn pair_of(entry: u32) -> usize
    ensures { (result ≡ pair_of most_ports entry) × (result < pairs most_ports) }
{
    entry as usize % PAIRS
}

// Not one function with queue_records' mark_cells: the clauses of a closure for the place would be longer than this loop.
#[tactic(auto, using(laws::proofs::Loops::none, laws::proofs::Loops::again, laws::proofs::Loops::done))]
fn mark_pairs(entries: &[u32], marks: &mut Marks)
    ensures { marks.new ≡ marked (pair_of most_ports) entries.now marks.old }
{
    for &entry in entries {
        marks[pair_of(entry)] = 1;
    }
}

fn gather(s: Set, mark: u8, t: Target) -> Set
    requires { t.0 < most_ports }
    ensures { result ≡ cond (eqb mark 1) (with s t.0) s }
{
    if mark == 1 { words::with(s, t.0) } else { s }
}

#[tactic(auto, using(laws::proofs::Loops::none, laws::proofs::Loops::again, laws::proofs::Loops::done))]
fn row_of(marks: &Marks, i: usize) -> Set
    requires { i < most_ports }
    ensures { result ≡ gathered (λ t. met marks.now (i * most_ports + t)) most_ports }
{
    let start = i * State::MOST;
    let mut s = 0;
    for (t, &mark) in marks[start..start + State::MOST].iter().enumerate() {
        s = gather(s, mark, Target(t));
    }
    s
}

fn rows_of(marks: &Marks) -> Table
    ensures { result ≡ tabled most_ports (λ i. gathered (λ t. met marks.now (i * most_ports + t)) most_ports) most_ports }
{
    std::array::from_fn(|i| row_of(marks, i))
}

pub(crate) fn requests(words: &[u32]) -> Table
    requires { head_len + count_of words.now ≤ length words.now }
    ensures { result ≡ requests most_ports words.now }
{
    let end = HEAD_LEN + Records { words }.held();
    let mut marks = [0u8; PAIRS];
    mark_pairs(&words[HEAD_LEN..end], &mut marks);
    rows_of(&marks)
}
