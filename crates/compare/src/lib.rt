// A net compared with ties that are said to be its own: what the tables lent for it are refused for, the net of the ties grown into the
// comparison tables, and whether that is the net.
#![tactic(auto)]

mod likeness;
mod own;

ghost use Rattle.std.specs.Prelude.{◌≡◌, ◌||◌};
ghost use Rattle.game.specs.Net.{net};
ghost use Rattle.refusal.specs.Refusal.{wrong_length};
ghost use Rattle.growth.specs.Work.{work_of};
ghost use Rattle.growth.specs.Lists.{ListFits};
ghost use Rattle.compare.specs.Steps.{GrowsNet, Comparable, Compared};

use net::Net;
pub use own::is_own;

// Refusal 2 of the comparison tables and the work tables, by their lengths: n vertices, and `both` for vertices and edges together.
pub fn wrong_compared(
    n: usize,
    both: usize,
    compared_parents: usize,
    compared_weights: usize,
    ends: usize,
    jump: usize,
    lower: usize,
) -> bool
    ensures { result ≡ (wrong_length compared_parents n || wrong_length compared_weights n || (wrong_length ends n || wrong_length jump n || wrong_length lower both)) }
{
    (compared_parents != n) | (compared_weights != n) | growth::bad_work(n, both, ends, jump, lower)
}

// Grows the net of a list of ties, whatever the tables held. The edges stay filed.
fn grow_net(
    edges: &[u32],
    parents: &mut [u32],
    weights: &mut [u32],
    ends: &mut [u32],
    jump: &mut [u32],
    lower: &mut [u32],
)
    requires { ListFits edges.now (net parents.old weights.old) (work_of ends.old jump.old lower.old) }
    ensures { GrowsNet edges.now (net parents.old weights.old) (net parents.new weights.new)
        (work_of ends.new jump.new lower.new) }
{
    parents.fill(Net::ABSENT);
    weights.fill(0);
    ends.fill(0);
    // A list that fits has no fault, so the sweep accepts it.
    let _ = bucket::sweep(edges, ends, weights);
    bucket::file_counted(edges, ends, lower);
    growth::grow_kept(parents, ends, jump, lower);
}

// Grows the net of a list of ties into the comparison tables, and says whether it is the net. A list that is the net's own stays filed
// for the next reader; else the work tables end as zeros.
pub fn compare(
    parents: &[u32],
    weights: &[u32],
    edges: &[u32],
    compared_parents: &mut [u32],
    compared_weights: &mut [u32],
    ends: &mut [u32],
    jump: &mut [u32],
    lower: &mut [u32],
) -> bool
    requires { Comparable (net parents.now weights.now) edges.now (net compared_parents.old compared_weights.old)
        (work_of ends.old jump.old lower.old) }
    ensures { Compared (net parents.now weights.now) edges.now (work_of ends.old jump.old lower.old)
        result (net compared_parents.new compared_weights.new) (work_of ends.new jump.new lower.new) }
{
    grow_net(edges, compared_parents, compared_weights, ends, jump, lower);
    if likeness::same_net(parents, weights, compared_parents, compared_weights) {
        return true;
    }
    growth::clear(ends, jump, lower, 0);
    false
}
