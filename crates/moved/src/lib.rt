// Where a forest moved (document 02, Paper 2): it is seen where a vertex is linked to its parent, and is what adding and joining answer,
// the lowest vertex whose parent is another than before. While they work, it is the number of a vertex, absent where none has moved, so
// that the lowest of two is their minimum.
#![tactic(auto)]

ghost use Rattle.std.specs.Prelude.{◌≡◌, ◌<◌, length, get_or, set};
ghost use Rattle.moved.specs.Moved.{moved_rank};
ghost use Rattle.moved.specs.Steps.{moved_at, moved_with};

use net::Net;

// The lowest vertex that moved, of those so far and w, which is about to get the parent y. Where a lower one has moved, the old parent of w
// need not be read, and so need not be waited for.
fn lowest_with(w: u32, y: u32, parents: &[u32], moved: u32) -> u32
    requires { w < length parents.now }
    ensures { result ≡ moved_with moved w (get_or parents.now w 0) y }
{
    if moved <= w {
        return moved;
    }
    let at = w as usize;
    if parents[at] == y {
        return moved;
    }
    moved.min(w)
}

// Makes y the parent of w, which has the parent from before still. Answers the lowest vertex that moved, of those so far and w.
pub fn link(w: u32, y: u32, parents: &mut [u32], moved: u32) -> u32
    requires { w < length parents.old }
    ensures { (parents.new ≡ set parents.old w y) × (result ≡ moved_with moved w (get_or parents.old w 0) y) }
{
    let lowest = lowest_with(w, y, parents, moved);
    let at = w as usize;
    parents[at] = y;
    lowest
}

// What a call answers by the lowest vertex that moved: nothing where all parents are as before.
pub fn moved_at(lowest: u32) -> Option<u32>
    ensures { result ≡ moved_at lowest }
{
    if lowest == Net::ABSENT {
        return None;
    }
    Some(lowest)
}

// The answer as one number: absent, where none moved.
pub fn moved_rank(moved: Option<u32>) -> u32
    ensures { result ≡ moved_rank moved }
{
    moved.unwrap_or(Net::ABSENT)
}
