// How many different blocks each vertex meets, and how many of its edges, in list order, it takes to count them.
//
// The edges of a vertex that lead up are all of its own block; those that lead down are of the blocks of its lower neighbours, and its
// bucket has these in list order. So with its own block taken as met the bucket is counted until all blocks are met (counting). How the
// edges that lead up stand between the others the buckets do not tell; so where all blocks were met, and some edge leads up, the vertex
// waits, and one pass over the list, which ends when none waits any more, tells when its count ended (waiting).
#![tactic(auto)]

mod counting;
mod stamping;
mod waiting;

ghost use Rattle.game.specs.Edge.{edges as edges_of};
ghost use Rattle.block_count.specs.CountingSteps.{Countable, Writes};

// A stamp for each block.
const STAMPS: usize = refusal::MAX_BLOCKS as usize;

// Writes for each vertex how many different ones of `all` blocks it meets, and how many of its edges that takes, from edges that are
// filed by their upper end. `edges_taken` comes with the number of edges that lead up from each vertex. `pending` is a work table.
pub fn write_block_counts(
    edges: &[u32],
    block: &[u32],
    all: u32,
    ends: &[u32],
    lower: &[u32],
    block_count: &mut [u32],
    edges_taken: &mut [u32],
    pending: &mut [u32],
)
    requires { Countable (edges_of edges.now) edges_taken.old block.now all ends.now lower.now block_count.old pending.old }
    ensures { Writes (edges_of edges.now) block.now all block_count.new edges_taken.new }
{
    let mut stamps = [0u32; STAMPS];
    counting::count_buckets(
        block,
        all,
        ends,
        lower,
        block_count,
        edges_taken,
        pending,
        &mut stamps[..all as usize],
    );
    waiting::settle(edges, block, pending, edges_taken);
}
