// Ties of a flat list, one after another: an edge's two ends, and its rows. This is the one place that knows how many numbers a tie takes
// and where they stand.
#![tactic(auto)]

mod tie;

ghost use Rattle.std.specs.Prelude.{◌≡◌, ◌+◌, ◌*◌, ◌^◌, ◌≤◌, ◌<◌, length, set, drop};
ghost use Rattle.game.specs.Edge.{edges as edges_of, ties as ties_of};
ghost use Rattle.game.specs.Net.{charges as charges_of};
ghost use Rattle.edge.specs.Tie.{ties_left};

pub use tie::{Iter, Tie};

// The numbers to a tie in a flat list.
pub const STRIDE: usize = 3;

// The ties of a flat list. Numbers at its end that make no whole tie are left out.
pub fn ties(list: &[u32]) -> Iter<'_>
    ensures { ties_left result ≡ ties_of list.now }
{
    Iter { list }
}

// How many ties a flat list has. Numbers at its end that make no whole tie are left out.
pub fn count(list: &[u32]) -> usize
    ensures { result ≡ length (edges_of list.now) }
{
    list.len() / STRIDE
}

// The list from tie i on.
pub fn from(list: &[u32], i: usize) -> &[u32]
    requires { i ≤ length (edges_of list.now) }
    ensures { ties_of result.now ≡ drop i (ties_of list.now) }
{
    &list[STRIDE * i..]
}

// The sum of the rows of a list.
pub fn charges(list: &[u32]) -> u64
    requires { charges_of (ties_of list.now) < 2 ^ 64 }
    ensures { result ≡ charges_of (ties_of list.now) }
{
    let mut sum: u64 = 0;
    for tie in ties(list) {
        sum += u64::from(tie.rows);
    }
    sum
}

// Writes the tie with number i.
pub fn put(list: &mut [u32], i: usize, a: u32, b: u32, rows: u32)
    requires { 3 * i + 2 < length list.old }
    ensures { list.new ≡ set (set (set list.old (3 * i) a) (3 * i + 1) b) (3 * i + 2) rows }
{
    let k = STRIDE * i;
    list[k] = a;
    list[k + 1] = b;
    list[k + 2] = rows;
}
