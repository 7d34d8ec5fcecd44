// A short list is put into a forest edge by edge at little cost; a tall forest could make every step of it long, so the steps are counted
// against a budget, and what is left is grown with the whole forest.
ghost use Rattle.std.specs.Prelude.{◌+◌, ◌≤◌, ◌<◌};
ghost use Rattle.moved.specs.Steps.{Differ};
ghost use Rattle.insert.specs.Extending.{Extendable, Extends};

use crate::putting::put_some;

// How many exchanges a list is worth before the whole forest of n vertices is grown.
fn budget(n: usize) -> usize
    ensures { result ≤ n }
{
    n / 8
}

// Whether a list of m edges is long for n vertices: then it is not worth putting in one by one.
pub fn is_long(n: usize, m: usize) -> bool {
    budget(n) <= m
}

// Makes the parents those of the elimination game on the old links and the edges of the list, and clears the work tables. Answers the
// lowest vertex that moved.
pub fn insert(
    parents: &mut [u32],
    edges: &[u32],
    ends: &mut [u32],
    jump: &mut [u32],
    lower: &mut [u32],
) -> u32
    requires { Extendable parents.old edges.now ends.old jump.old lower.old }
    ensures { Extends parents.old edges.now ends.old jump.old lower.old parents.new ends.new jump.new lower.new × Differ parents.old parents.new result }
{
    let most = budget(parents.len());
    let progress = put_some(parents, edges, most);
    let at = progress.count;
    if edge::count(edges) <= at {
        growth::clear(ends, jump, lower, 0);
        return progress.moved;
    }
    bucket::file_edges(parents, edge::from(edges, at), ends, lower);
    let grown = growth::grow(parents, true, ends, jump, lower);
    progress.moved.min(grown)
}
