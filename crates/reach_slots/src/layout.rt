// The layout of the slots, one to an edge, along the forest.
ghost use Rattle.std.specs.Prelude.{◌≡◌, List, ℕ, ◌+◌, ◌<◌, length};
ghost use Rattle.game.specs.Table.{sum as sum_of};
ghost use Rattle.reach_slots.specs.Balance.{entry_of, Summable, Subtrees};
ghost use Rattle.reach_slots.specs.Layout.{Layout};

use net::Net;
use table::{add_at, read_at, write_at};

// Sums a table up along the forest: the entry of each vertex becomes the sum of the entries in its subtree.
// Children are below their parents, so by rising rank each vertex is done when its turn comes.
pub fn sum_subtrees(parents: &[u32], sums: &mut [u32])
    requires { Summable parents.now sums.old }
    ensures { Subtrees parents.now sums.old (entry_of sums.new) (sum_of sums.old) }
{
    for (x, &parent) in parents.iter().enumerate() {
        let sum = sums[x];
        if parent != Net::ABSENT {
            add_at(sums, parent, sum);
        }
    }
}

// Lays out `total` slots. `ends` holds the counts of the subtrees, and then where the stretch of each vertex ends; `stops` gets
// where the slots of the vertex itself stop, at the front of its stretch. Those come before its children's, so that an edge
// finds the latest one of its upper end on the way up from itself as often as may be.
fn place_subtrees(parents: &[u32], total: u32, ends: &mut [u32], stops: &mut [u32])
    requires ends_len { (length ends.old ≡ length parents.now) × (length stops.old ≡ length parents.now) }
    requires by_index { (w : List ℕ) × Subtrees parents.now w (entry_of ends.old) total }
    ensures { (w : List ℕ) → Subtrees parents.now w (entry_of ends.old) total
        → Layout parents.now w stops.new ends.new total }
{
    let mut top = total;
    for x in (0..parents.len()).rev() {
        let parent = parents[x];
        let size = ends[x];
        if parent == Net::ABSENT {
            stops[x] = top;
            ends[x] = top;
            top -= size;
        } else {
            let end = read_at(stops, parent);
            stops[x] = end;
            ends[x] = end;
            write_at(stops, parent, end - size);
        }
    }
}

// Lays out a slot for each edge, from the parents and the counts alone.
pub fn lay_out(parents: &[u32], counts: &[u32], total: u32, ends: &mut [u32], stops: &mut [u32])
    requires summable { Summable parents.now counts.now }
    requires counts_value { sum_of counts.now ≡ total }
    requires ends_len { (length ends.old ≡ length parents.now) × (length stops.old ≡ length parents.now) }
    ensures { Layout parents.now counts.now stops.new ends.new total }
{
    table::copy(counts, ends);
    sum_subtrees(parents, ends);
    place_subtrees(parents, total, ends, stops);
}
