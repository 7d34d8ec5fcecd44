// Climbs: from a vertex up to the root of its tree, which becomes a child of y. They are made one by one, or begun all, one step each, and
// gone on with from where they stand.
ghost use Rattle.std.specs.Prelude.{◌<◌, ◌≤◌, length};
ghost use Rattle.refusal.specs.Limits.{max_vertices};
ghost use Rattle.growth.specs.Moves.{Moves};
ghost use Rattle.growth.specs.Growth.{Upward, Connects, Steps, ConnectsAll, Begins};

use net::Net;

// Where a climb stands after a step, y if it has ended, and the lowest vertex that moved so far.
#[derive(Drop)]
struct Stand {
    at: u32,
    moved: u32,
}

// Makes a step of a climb for y, which stands at w: w jumps to y from now on. A root becomes a child of y, and the climb has ended; else it
// goes on from where w jumped to, which is higher.
fn step(w: u32, y: u32, parents: &mut [u32], jump: &mut [u32], moved: u32) -> Stand
    requires { (y < length parents.old) × (length parents.old ≤ max_vertices) × Upward (length parents.old) jump.old }
    ensures { Steps w y parents.old jump.old parents.new jump.new result.at × Moves parents.old jump.old moved parents.new jump.new result.moved }
{
    if y <= w {
        return Stand { at: w, moved };
    }
    let at = w as usize;
    let next = jump[at];
    jump[at] = y;
    if next == Net::ABSENT {
        let lowest = moved::link(w, y, parents, moved);
        return Stand {
            at: y,
            moved: lowest,
        };
    }
    Stand { at: next, moved }
}

// Makes the root of u's tree a child of y, and every vertex on the way jump to y. Answers the lowest vertex that moved so far.
pub fn climb(u: u32, y: u32, parents: &mut [u32], jump: &mut [u32], moved: u32) -> u32
    requires { (y < length parents.old) × (length parents.old ≤ max_vertices) × Upward (length parents.old) jump.old }
    ensures { Connects u y parents.old jump.old parents.new jump.new × Moves parents.old jump.old moved parents.new jump.new result }
{
    let mut w = u;
    let mut lowest = moved;
    while w < y {
        let next = step(w, y, parents, jump, lowest);
        w = next.at;
        lowest = next.moved;
    }
    lowest
}

// Climbs for y from each vertex of a list. Its place is kept, or cleared while it is at hand. Answers the lowest vertex that moved so far.
pub fn climb_all<const KEEP: bool>(
    y: u32,
    vertices: &mut [u32],
    parents: &mut [u32],
    jump: &mut [u32],
    moved: u32,
) -> u32
    requires { (y < length parents.old) × (length parents.old ≤ max_vertices) × Upward (length parents.old) jump.old }
    ensures { ConnectsAll y KEEP vertices.old parents.old jump.old vertices.new parents.new jump.new × Moves parents.old jump.old moved parents.new jump.new result }
{
    let mut lowest = moved;
    for place in vertices.iter_mut() {
        let u = *place;
        if !KEEP {
            *place = 0;
        }
        lowest = climb(u, y, parents, jump, lowest);
    }
    lowest
}

// Begins a climb for y from each vertex of y's bucket, which then holds where the climbs stand. Answers the lowest vertex that moved so
// far.
pub fn step_all(
    y: u32,
    bucket: &mut [u32],
    parents: &mut [u32],
    jump: &mut [u32],
    moved: u32,
) -> u32
    requires { (y < length parents.old) × (length parents.old ≤ max_vertices) × Upward (length parents.old) jump.old }
    ensures { Begins y bucket.old parents.old jump.old bucket.new parents.new jump.new × Moves parents.old jump.old moved parents.new jump.new result }
{
    let mut lowest = moved;
    for place in bucket.iter_mut() {
        let first = step(*place, y, parents, jump, lowest);
        *place = first.at;
        lowest = first.moved;
    }
    lowest
}
