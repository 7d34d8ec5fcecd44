// A long list taken into a net, its edges counted by upper end before, and its rows charged to the table of jumps, which is free until the
// forest is grown. It is often the first: then no old link stands among the edges that are filed.
ghost use Rattle.std.specs.Prelude.{◌≡◌, false};
ghost use Rattle.game.specs.Edge.{ties as ties_of};
ghost use Rattle.bucket.specs.Ends.{weighed};
ghost use Rattle.moved.specs.Steps.{Differ};
ghost use Rattle.insert.specs.Extending.{Extendable, Extends, Weighable, Counted};

use net::Net;

// Grows the forest of the old links and the edges of the list, raises the weight of each tie's lower end by its rows, and clears the work
// tables. Answers the lowest vertex that moved.
pub fn grow_counted(
    parents: &mut [u32],
    weights: &mut [u32],
    edges: &[u32],
    ends: &mut [u32],
    jump: &mut [u32],
    lower: &mut [u32],
) -> u32
    requires { Extendable parents.old edges.now ends.old jump.old lower.old × Weighable parents.old weights.old edges.now × Counted parents.old edges.now ends.old jump.old }
    ensures { Extends parents.old edges.now ends.old jump.old lower.old parents.new ends.new jump.new lower.new × (weights.new ≡ weighed (ties_of edges.now) weights.old) × Differ parents.old parents.new result }
{
    table::add_all(weights, jump);
    if table::is_all(parents, Net::ABSENT) {
        bucket::file_counted(edges, ends, lower);
        return growth::grow(parents, false, ends, jump, lower);
    }
    bucket::file_counted_edges(parents, edges, ends, lower);
    growth::grow(parents, true, ends, jump, lower)
}
