// The columns of a table of sixteen rows: four words of four rows each become four words of four columns each.
ghost use Rattle.std.specs.Prelude.{◌≡◌, ◌<◌};
ghost use Rattle.columns.specs.Transpose.{up, down, four, near, transposed, part, columns, column};

use ports::{State, Table};

// Digits of x, and digits of y from s places below.
#[tactic(auto, unfolding(crate::specs::Transpose::up))]
fn up(x: u64, y: u64, kept: u64, moved: u64, s: usize) -> u64
    requires { s < 64 }
    ensures { result ≡ up kept moved s x y }
{
    (x & kept) | ((y & moved) << s)
}

// Digits of x, and digits of y from s places above.
#[tactic(auto, unfolding(crate::specs::Transpose::down))]
fn down(x: u64, y: u64, kept: u64, moved: u64, s: usize) -> u64
    requires { s < 64 }
    ensures { result ≡ down kept moved s x y }
{
    (x & kept) | ((y >> s) & moved)
}

// Four rows in one word.
#[tactic(auto, unfolding(crate::specs::Transpose::four))]
fn four(a: u16, b: u16, c: u16, d: u16) -> u64
    ensures { result ≡ four a b c d }
{
    ((u64::from(d) * 65536 + u64::from(c)) * 65536 + u64::from(b)) * 65536 + u64::from(a)
}

// Each square of four rows and four columns of the word is turned over.
fn near(w: u64) -> u64
    ensures { result ≡ near w }
{
    let x = up(
        down(w, w, 0xFFFF5555FFFF5555, 0x0000AAAA0000AAAA, 15),
        w,
        0xAAAAFFFFAAAAFFFF,
        0x0000AAAA0000AAAA,
        15,
    );
    up(
        down(x, x, 0xFFFFFFFF33333333, 0x00000000CCCCCCCC, 30),
        x,
        0xCCCCCCCCFFFFFFFF,
        0x00000000CCCCCCCC,
        30,
    )
}

// Every square is turned over, and then the squares change places.
fn transposed(rows: [u16; 16]) -> [u64; 4]
    ensures { result ≡ transposed rows }
{
    let a = near(four(rows[0], rows[1], rows[2], rows[3]));
    let b = near(four(rows[4], rows[5], rows[6], rows[7]));
    let c = near(four(rows[8], rows[9], rows[10], rows[11]));
    let d = near(four(rows[12], rows[13], rows[14], rows[15]));
    let e = up(a, b, 0x0F0F0F0F0F0F0F0F, 0x0F0F0F0F0F0F0F0F, 4);
    let f = down(b, a, 0xF0F0F0F0F0F0F0F0, 0x0F0F0F0F0F0F0F0F, 4);
    let g = up(c, d, 0x0F0F0F0F0F0F0F0F, 0x0F0F0F0F0F0F0F0F, 4);
    let h = down(d, c, 0xF0F0F0F0F0F0F0F0, 0x0F0F0F0F0F0F0F0F, 4);
    [
        up(e, g, 0x00FF00FF00FF00FF, 0x00FF00FF00FF00FF, 8),
        up(f, h, 0x00FF00FF00FF00FF, 0x00FF00FF00FF00FF, 8),
        down(g, e, 0xFF00FF00FF00FF00, 0x00FF00FF00FF00FF, 8),
        down(h, f, 0xFF00FF00FF00FF00, 0x00FF00FF00FF00FF, 8),
    ]
}

#[tactic(auto, unfolding(crate::specs::Transpose::part))]
fn part(words: &[u64; 4], t: usize) -> u16
    requires { t < 16 }
    ensures { result ≡ part words.now t }
{
    let at = t / 4;
    ((words[at] >> (t % 4 * 16)) % 65536) as u16
}

// Each column by itself, for each is asked for twice. By index: with the library's `from_fn` a slot took 1.03 of the time.
pub(crate) fn columns(rows: Table) -> Table
    ensures { result ≡ columns rows }
{
    let words = transposed(rows);
    let mut sides = State::empty_table();
    for t in 0..16 {
        sides[t] = part(&words, t);
    }
    sides
}

pub(crate) fn column(columns: &Table, t: usize) -> u32
    requires { t < 16 }
    ensures { result ≡ column columns.now t }
{
    u32::from(columns[t])
}
