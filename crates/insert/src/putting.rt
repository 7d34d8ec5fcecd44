// Edges put into a forest one by one, by exchanges, without a work table.
ghost use Rattle.std.specs.Prelude.{◌≡◌, ◌+◌, ◌≤◌, ◌<◌, length};
ghost use Rattle.game.specs.Edge.{ties as ties_of, ◌─◌};
ghost use Rattle.refusal.specs.Limits.{max_vertices};
ghost use Rattle.refusal.specs.Refusal.{first_fault};
ghost use Rattle.moved.specs.Steps.{Fallen};
ghost use Rattle.insert.specs.Putting.{Table, Exchanged, Lowers, PutEdge, PutUpTo};

use net::Net;

// An edge on its way into the forest, from a lower vertex to a higher one; spent, where the two are one. With it goes the lowest vertex
// that moved so far.
#[derive(Drop)]
struct Pending {
    low: u32,
    high: u32,
    moved: u32,
}

// How far putting in has come: exchanges that were made, or edges that are in; and the lowest vertex that moved.
#[derive(Drop)]
pub struct Progress {
    pub count: usize,
    pub moved: u32,
}

// One exchange: the lower vertex takes the edge in if it is a root; else the edge goes on from the lower of its parent and the
// edge's upper end, to the higher. A vertex that is written gets a lower parent, so it has moved for good.
fn exchange(parents: &mut [u32], low: u32, high: u32, moved: u32) -> Pending
    requires { Table parents.old × (low < high) × (high < length parents.old) }
    ensures { Exchanged parents.old low high parents.new result.low result.high × Lowers parents.old moved parents.new result.moved }
{
    let at = low as usize;
    let parent = parents[at];
    if parent == Net::ABSENT {
        parents[at] = high;
        return Pending {
            low: high,
            high,
            moved: moved.min(low),
        };
    }
    if parent <= high {
        return Pending {
            low: parent,
            high,
            moved,
        };
    }
    parents[at] = high;
    Pending {
        low: high,
        high: parent,
        moved: moved.min(low),
    }
}

// Puts an edge in, given by its ends, lower first. Answers the number of exchanges, and the lowest vertex that moved so far.
fn put_up(parents: &mut [u32], from: u32, to: u32, moved: u32) -> Progress
    requires { Table parents.old × (from < to) × (to < length parents.old) }
    ensures { PutEdge parents.old (from ─ to) parents.new result.count × Lowers parents.old moved parents.new result.moved }
{
    let mut low = from;
    let mut high = to;
    let mut lowest = moved;
    let mut steps = 0;
    while low < high {
        let edge = exchange(parents, low, high, lowest);
        low = edge.low;
        high = edge.high;
        lowest = edge.moved;
        steps += 1;
    }
    Progress {
        count: steps,
        moved: lowest,
    }
}

// Puts in the edges of a list one by one, as long as fewer exchanges were made than the budget allows. Answers how many of them are in,
// and the lowest vertex that moved.
pub fn put_some(parents: &mut [u32], edges: &[u32], budget: usize) -> Progress
    requires { Table parents.old × (first_fault (length parents.old) (ties_of edges.now) ≡ 0) × (budget ≤ max_vertices) }
    ensures { PutUpTo parents.old edges.now parents.new result.count × Fallen parents.old parents.new result.moved }
{
    let m = edge::count(edges);
    let mut moved = Net::ABSENT;
    let mut steps = 0;
    for (i, tie) in edge::ties(edges).enumerate() {
        if budget <= steps {
            return Progress { count: i, moved };
        }
        let taken = put_up(parents, tie.lower(), tie.upper(), moved);
        steps += taken.count;
        moved = taken.moved;
    }
    Progress { count: m, moved }
}
