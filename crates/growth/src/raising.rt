// The growth of a forest by union-find with path compression, over edges by rising upper end (document 001).
ghost use Rattle.std.specs.Prelude.{◌≡◌, ◌<◌, ◌≤◌, length, take, replicate};
ghost use Rattle.game.specs.Game.{absent};
ghost use Rattle.refusal.specs.Limits.{max_vertices};
ghost use Rattle.moved.specs.Steps.{Differ};
ghost use Rattle.growth.specs.Moves.{Moves};
ghost use Rattle.growth.specs.Work.{work_of, cleared};
ghost use Rattle.growth.specs.Growth.{Upward, Gathers, Blank, Raises, Growable, Grows, GrowsKept};

use crate::climbing;
use net::Net;

// Takes in y's bucket: climbs from each of its vertices. The first steps of all climbs are made before any goes on, because they lead far
// apart and need not wait for each other. They go on from the bucket's own places, so where those are kept, each climb is made whole; and
// where that is asked for, because most of what is filed are links, one or two to a bucket.
fn gather<const KEEP: bool, const WHOLE: bool>(
    y: u32,
    bucket: &mut [u32],
    parents: &mut [u32],
    jump: &mut [u32],
    moved: u32,
) -> u32
    requires { (y < length parents.old) × (length parents.old ≤ max_vertices) × Upward (length parents.old) jump.old }
    ensures { Gathers y KEEP bucket.old parents.old jump.old bucket.new parents.new jump.new × Moves parents.old jump.old moved parents.new jump.new result }
{
    if KEEP | WHOLE {
        return climbing::climb_all::<KEEP>(y, bucket, parents, jump, moved);
    }
    let lowest = climbing::step_all(y, bucket, parents, jump, moved);
    climbing::climb_all::<KEEP>(y, bucket, parents, jump, lowest)
}

// What raising answers: where the last bucket ends, and the lowest vertex that moved.
#[derive(Drop)]
struct Raising {
    end: usize,
    moved: u32,
}

// Raises the vertices upward, each with its bucket of lower ends, to the forest of the graph that is filed. A vertex has its new parent
// when it has a jump; before that its entry is left from before. Up to where the last bucket ends the table of lower ends is kept or
// cleared.
fn raise<const KEEP: bool, const WHOLE: bool>(
    parents: &mut [u32],
    ends: &[u32],
    jump: &mut [u32],
    lower: &mut [u32],
) -> Raising
    requires { Blank ends.now lower.old parents.old jump.old }
    ensures { Raises KEEP ends.now lower.old parents.old jump.old lower.new parents.new jump.new result.end × Moves parents.old jump.old absent parents.new jump.new result.moved }
{
    let mut moved = Net::ABSENT;
    let mut at = 0;
    for (y, &end) in ends.iter().enumerate() {
        let end = end as usize;
        moved = gather::<KEEP, WHOLE>(y as u32, &mut lower[at..end], parents, jump, moved);
        at = end;
    }
    Raising { end: at, moved }
}

// Clears the work tables, of which the table of lower ends is clear up to a place.
pub fn clear(ends: &mut [u32], jump: &mut [u32], lower: &mut [u32], from: usize)
    requires { (from ≤ length lower.old) × (take from lower.old ≡ replicate from 0) }
    ensures { work_of ends.new jump.new lower.new ≡ cleared (work_of ends.old jump.old lower.old) }
{
    ends.fill(0);
    jump.fill(0);
    lower[from..].fill(0);
}

// Grows the forest as `grow` says. How climbs are made is a constant here, so that no loop tests it.
fn grow_by<const WHOLE: bool>(
    parents: &mut [u32],
    ends: &mut [u32],
    jump: &mut [u32],
    lower: &mut [u32],
) -> u32
    requires { Growable ends.old lower.old parents.old jump.old }
    ensures { Grows ends.old lower.old parents.old jump.old parents.new ends.new lower.new jump.new × Differ parents.old parents.new result }
{
    jump.fill(Net::ABSENT);
    let raising = raise::<false, WHOLE>(parents, ends, jump, lower);
    clear(ends, jump, lower, raising.end);
    raising.moved
}

// Grows the forest of the graph that is filed, which has the links that the table of parents holds, and clears the work tables. Climbs are
// made whole where the flag is set: that is quicker where most of what is filed are links. Answers the lowest vertex that moved.
pub fn grow(
    parents: &mut [u32],
    whole: bool,
    ends: &mut [u32],
    jump: &mut [u32],
    lower: &mut [u32],
) -> u32
    requires { Growable ends.old lower.old parents.old jump.old }
    ensures { Grows ends.old lower.old parents.old jump.old parents.new ends.new lower.new jump.new × Differ parents.old parents.new result }
{
    if whole {
        grow_by::<true>(parents, ends, jump, lower)
    } else {
        grow_by::<false>(parents, ends, jump, lower)
    }
}

// Grows the forest in the same way, with what is filed kept for the next reader. The jumps are left as they stand.
pub fn grow_kept(parents: &mut [u32], ends: &[u32], jump: &mut [u32], lower: &mut [u32])
    requires { Growable ends.now lower.old parents.old jump.old }
    ensures { GrowsKept ends.now lower.old parents.old parents.new lower.new }
{
    jump.fill(Net::ABSENT);
    raise::<true, true>(parents, ends, jump, lower);
}
