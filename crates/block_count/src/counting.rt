// Each vertex's bucket, counted until all blocks are met.
ghost use Rattle.std.specs.Prelude.{◌≡◌, ◌+◌, ◌≤◌};
ghost use Rattle.refusal.specs.Limits.{max_edges};
ghost use Rattle.block_count.specs.CountingSteps.{CountableAt, Counts, known_at, Bucketed, Counted};

use crate::stamping::{meet, meet_own};
use crate::waiting::UNMET;

// What the count at a vertex found: how many different blocks, and how many of its lower neighbours it read.
#[derive(Drop)]
struct Met {
    count: u32,
    read: usize,
}

// How many of its edges a vertex is known to take, and what its count waits for besides, 0 for nothing.
#[derive(Drop)]
struct Known {
    taken: u32,
    pending: u32,
}

// Counts the different blocks that vertex y meets, by how many of its edges lead up and by its lower neighbours, and ends as soon as it has
// met them all. If an edge leads up the own block is met first, wherever that edge stands in the list.
fn count_at(y: u32, up: u32, lower: &[u32], block: &[u32], all: u32, stamps: &mut [u32]) -> Met
    requires { CountableAt y all lower.now block.now stamps.old }
    ensures { Counts all block.now y up lower.now stamps.new result }
{
    let stamp = y + 1;
    let mut count = meet_own(up, block[y as usize], stamp, stamps);
    for (i, &low) in lower.iter().enumerate() {
        if count == all {
            return Met { count, read: i };
        }
        count += meet(block[low as usize], stamp, stamps);
    }
    Met {
        count,
        read: lower.len(),
    }
}

// What is known of a vertex when its bucket is counted, by the number of its edges that lead up and of those that lead down. If it did not
// meet all blocks, all of its edges are taken; if there is but one block, the first; if no edge leads up, those that were read. Else it
// waits for as many edges to lower neighbours as were read, and for one of its own block, and has taken none yet.
fn known_at(up: u32, size: usize, count: u32, read: usize, all: u32) -> Known
    requires { (up ≤ max_edges) × (size ≤ max_edges) × (read ≤ max_edges) }
    ensures { result ≡ known_at all up size count read }
{
    if count != all {
        let taken = up + size as u32;
        return Known { taken, pending: 0 };
    }
    if all == 1 {
        return Known {
            taken: 1,
            pending: 0,
        };
    }
    let taken = read as u32;
    if up == 0 {
        return Known { taken, pending: 0 };
    }
    let pending = taken + UNMET;
    Known { taken: 0, pending }
}

// Counts bucket after bucket. `edges_taken` comes with the number of edges that lead up from each vertex; each is read before it is
// written over.
pub fn count_buckets(
    block: &[u32],
    all: u32,
    ends: &[u32],
    lower: &[u32],
    block_count: &mut [u32],
    edges_taken: &mut [u32],
    pending: &mut [u32],
    stamps: &mut [u32],
)
    requires { Bucketed ends.now lower.now edges_taken.old block.now all block_count.old pending.old stamps.old }
    ensures { Counted all ends.now lower.now edges_taken.old block.now block_count.new edges_taken.new pending.new }
{
    let mut at = 0;
    for (y, &end) in ends.iter().enumerate() {
        let end = end as usize;
        let up = edges_taken[y];
        let met = count_at(y as u32, up, &lower[at..end], block, all, stamps);
        block_count[y] = met.count;
        let known = known_at(up, end - at, met.count, met.read, all);
        edges_taken[y] = known.taken;
        pending[y] = known.pending;
        at = end;
    }
}
