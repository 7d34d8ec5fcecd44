// A tournament of the blocks: the block with the least load, of equals the lowest number.
// Of k blocks, node k + j stands for block j, and a node i below k has the lower of the keys of the nodes 2i and 2i + 1, so that node 1
// has the lowest key of all. A key puts a block's load before its number.
ghost use Rattle.std.specs.Prelude.{◌≡◌, ◌+◌, ◌*◌, ◌/◌, ◌≤◌, ◌<◌, length, replicate};
ghost use Rattle.refusal.specs.DivisionLimits.{max_blocks};
ghost use Rattle.pack.specs.Lightest.{lightest};
ghost use Rattle.pack.specs.TournamentSteps.{key, Tournament, Outdated};

// Room for the nodes of 1,000 blocks.
pub const NODES: usize = 2_000;

// More than any block's number.
const NUMBERS: u64 = 1_024;

fn key_of(load: u32, block: usize) -> u64
    requires { block < max_blocks }
    ensures { result ≡ key load block }
{
    load as u64 * NUMBERS + block as u64
}

// The node that has the same parent as i.
fn sibling(i: usize) -> usize
    requires { (2 ≤ i) × (i < 2 * max_blocks) }
    ensures { result + i ≡ 4 * (i / 2) + 1 }
{
    if i % 2 == 0 { i + 1 } else { i - 1 }
}

// Lets all blocks play, with no load yet, from the last node up.
pub fn start(blocks: usize, nodes: &mut [u64])
    requires { (0 < blocks) × (blocks ≤ max_blocks) × (length nodes.old ≡ 2 * max_blocks) }
    ensures { Tournament (replicate blocks 0) nodes.new }
{
    for i in (1..2 * blocks).rev() {
        if i < blocks {
            nodes[i] = nodes[2 * i].min(nodes[2 * i + 1]);
        } else {
            nodes[i] = (i - blocks) as u64;
        }
    }
}

// A block has a new load: it plays again, and so do the nodes above it. The answer is the block that wins. A group that carries nothing
// leaves the load as it was, and all nodes too.
pub fn replay(loads: &[u32], block: usize, nodes: &mut [u64]) -> usize
    requires { Outdated block loads.now nodes.old }
    ensures { Tournament loads.now nodes.new × (result ≡ lightest loads.now) }
{
    let mut i = loads.len() + block;
    let mut least = key_of(loads[block], block);
    if nodes[i] == least {
        return (nodes[1] % NUMBERS) as usize;
    }
    nodes[i] = least;
    while 1 < i {
        least = least.min(nodes[sibling(i)]);
        i /= 2;
        nodes[i] = least;
    }
    (least % NUMBERS) as usize
}
