// Refusals: what calls are refused for, document 01's limits, and the tests that several calls share.
#![tactic(auto)]

mod kinds;
mod limits;
mod ties;

ghost use Rattle.std.specs.Prelude.{◌≡◌};
ghost use Rattle.refusal.specs.Refusal.{bad_count, not_whole};

pub use kinds::Refusal;
pub use limits::{MAX_BLOCKS, MAX_ROWS, bad_limits, bad_rows, too_heavy};
pub use ties::{check_list, check_tie, check_ties};

// The largest number of vertices of a net.
pub const MAX_VERTICES: usize = 1_000_000;

// The largest number of ties in a list that a call takes whole.
pub const MAX_EDGES: usize = 16_000_000;

// Refusal 1: no vertex, or too many.
pub fn bad_count(n: usize) -> bool
    ensures { result ≡ bad_count n }
{
    n == 0 || MAX_VERTICES < n
}

// Refusal 2 of a flat list: its numbers do not make whole ties.
pub fn not_whole(list: &[u32]) -> bool
    ensures { result ≡ not_whole list.now }
{
    list.len() % edge::STRIDE != 0
}
