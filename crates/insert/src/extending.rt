// A list of ties taken into a net: the forest and the weights.
ghost use Rattle.std.specs.Prelude.{◌≡◌, true};
ghost use Rattle.game.specs.Edge.{ties as ties_of};
ghost use Rattle.bucket.specs.Ends.{weighed};
ghost use Rattle.moved.specs.Steps.{Differ};
ghost use Rattle.insert.specs.Extending.{Extendable, Extends, Weighable, Counted};

use crate::{growing, inserting};

// Makes the parents those of the elimination game on the old links and the edges of the list, raises the weight of each tie's lower end
// by its rows, and clears the work tables. Answers the lowest vertex that moved. The flag says that the list is counted by upper end, and
// its rows charged to the table of jumps: then it is grown with the whole forest.
pub fn extend(
    parents: &mut [u32],
    weights: &mut [u32],
    edges: &[u32],
    ends: &mut [u32],
    jump: &mut [u32],
    lower: &mut [u32],
    counted: bool,
) -> u32
    requires { Extendable parents.old edges.now ends.old jump.old lower.old × Weighable parents.old weights.old edges.now × (counted ≡ true → Counted parents.old edges.now ends.old jump.old) }
    ensures { Extends parents.old edges.now ends.old jump.old lower.old parents.new ends.new jump.new lower.new × (weights.new ≡ weighed (ties_of edges.now) weights.old) × Differ parents.old parents.new result }
{
    if counted {
        return growing::grow_counted(parents, weights, edges, ends, jump, lower);
    }
    bucket::charge(edges, weights);
    inserting::insert(parents, edges, ends, jump, lower)
}
