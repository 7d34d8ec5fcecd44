// What a division costs: the block of each edge, the bound and the volume of communication between the blocks, and beside them the even
// share of a block.
#![tactic(auto)]

mod summing;

ghost use Rattle.std.specs.Prelude.{◌≡◌, length};
ghost use Rattle.game.specs.Edge.{edges as edges_of};
ghost use Rattle.game.specs.Graph.{Proper};
ghost use Rattle.block_count.specs.BlockCount.{edge_blocks_of};
ghost use Rattle.cost.specs.Steps.{ReportTables, summed};

use share::Share;

// What a report answers of a division: the bound and the volume of communication, and the even share of a block.
#[derive(Drop)]
pub struct Totals {
    pub bound: u64,
    pub volume: u64,
    pub share: Share,
}

// Sums the tables of a report up.
pub fn sum_up(
    parents: &[u32],
    top: &[u32],
    reach: &[u32],
    block_count: &[u32],
    block_loads: &[u32],
) -> Totals
    requires { ReportTables parents.now top.now reach.now block_count.now block_loads.now }
    ensures { result ≡ summed parents.now top.now reach.now block_count.now block_loads.now }
{
    let bound = summing::bound(parents, top, reach);
    let volume = summing::volume(block_count);
    let share = share::even_share(block_loads);
    Totals {
        bound,
        volume,
        share,
    }
}

// Writes the block of each edge: that of its lower end.
pub fn write_edge_blocks(edges: &[u32], block: &[u32], edge_blocks: &mut [u32])
    requires proper { Proper (length block.now) (edges_of edges.now) }
    requires edge_blocks_len { length edge_blocks.old ≡ length (edges_of edges.now) }
    ensures { edge_blocks.new ≡ edge_blocks_of block.now (edges_of edges.now) }
{
    for (i, tie) in edge::ties(edges).enumerate() {
        edge_blocks[i] = block[tie.lower() as usize];
    }
}
