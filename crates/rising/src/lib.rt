// A first list whose ties stand by rising upper end. The forest is grown upward from edges in that order, so this list is grown as it
// stands: nothing is counted and nothing is filed.
#![tactic(auto)]

ghost use Rattle.std.specs.Prelude.{◌≡◌, true, false, length, replicate};
ghost use Rattle.game.specs.Edge.{edges as edges_of, ties as ties_of};
ghost use Rattle.game.specs.Game.{absent, forest};
ghost use Rattle.moved.specs.Steps.{Differ};
ghost use Rattle.bucket.specs.Ends.{weighed};
ghost use Rattle.growth.specs.Work.{work_of, cleared};
ghost use Rattle.growth.specs.Growth.{new_parents, Untouched};
ghost use Rattle.growth.specs.Moves.{Moves};
ghost use Rattle.rising.specs.Rising.{Rises, Takable};

use net::Net;

// Whether no tie of a list has a fault and no upper end is below the one before. The list is read up to the first that breaks either,
// which in most lists is one of the first.
pub fn is_rising(n: usize, edges: &[u32]) -> bool
    ensures { result ≡ true → Rises n 0 (ties_of edges.now) }
{
    let mut last = 0;
    for tie in edge::ties(edges) {
        let end = tie.upper();
        if (n <= end as usize) | (tie.a == tie.b) | refusal::bad_rows(tie.rows) | (end < last) {
            return false;
        }
        last = end;
    }
    true
}

// Takes the ties in one after the other: charges the rows of each to its lower end, and climbs from there to the upper. Answers the lowest
// vertex that moved.
fn raise_list(edges: &[u32], weights: &mut [u32], parents: &mut [u32], jump: &mut [u32]) -> u32
    requires { Takable edges.now weights.old parents.old × (jump.old ≡ replicate (length parents.old) absent) }
    ensures { (new_parents parents.new jump.new ≡ forest (length parents.old) (edges_of edges.now))
        × (weights.new ≡ weighed (ties_of edges.now) weights.old)
        × Untouched parents.old jump.old parents.new jump.new
        × Moves parents.old jump.old absent parents.new jump.new result }
{
    let mut moved = Net::ABSENT;
    for tie in edge::ties(edges) {
        let u = tie.lower();
        let y = tie.upper();
        table::add_at(weights, u, tie.rows);
        moved = growth::climb(u, y, parents, jump, moved);
    }
    moved
}

// Grows the forest of the list where no vertex has a parent, adds its weights, and clears the work tables. Answers the lowest vertex that
// moved.
pub fn grow_list(
    parents: &mut [u32],
    weights: &mut [u32],
    edges: &[u32],
    ends: &mut [u32],
    jump: &mut [u32],
    lower: &mut [u32],
) -> u32
    requires { Takable edges.now weights.old parents.old × (parents.old ≡ replicate (length parents.old) absent) × (length jump.old ≡ length parents.old) }
    ensures { (parents.new ≡ forest (length parents.old) (edges_of edges.now))
        × (weights.new ≡ weighed (ties_of edges.now) weights.old)
        × (work_of ends.new jump.new lower.new ≡ cleared (work_of ends.old jump.old lower.old))
        × Differ parents.old parents.new result }
{
    jump.fill(Net::ABSENT);
    let moved = raise_list(edges, weights, parents, jump);
    growth::clear(ends, jump, lower, 0);
    moved
}
