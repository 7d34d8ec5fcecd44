// What a report writes of a net that is the net of its edges: the division, and what it costs. The list is filed already; the reaches
// and the block counts are read from the same buckets.
#![tactic(auto)]

ghost use Rattle.std.specs.Prelude.{◌≡◌, List, length};
ghost use Rattle.game.specs.Edge.{Edge, edges as edges_of};
ghost use Rattle.game.specs.Net.{net};
ghost use Rattle.divide.specs.Tables.{held, SameTables};
ghost use Rattle.growth.specs.Work.{work_of};
ghost use Rattle.reach_slots.specs.Given.{lower_counts};
ghost use Rattle.report_write.specs.Tables.{written_in, SameFigures};
ghost use Rattle.report_write.specs.Steps.{Reportable, Spread, ReportWritten};

pub mod tables;

use cost::Totals;
use divide::cut_and_pack;
use divide::tables::Division;
use reach::reaches;
use tables::Figures;

// Divides the net, and writes the reaches of its vertices, from its edges as they are filed and counted by their lower end. The reaches
// come first: until the other tables are written, they are room for the counting.
fn divide_and_reach(
    parents: &[u32],
    weights: &[u32],
    limit: u32,
    counts: &[u32],
    ends: &[u32],
    lower: &[u32],
    division: &mut Division<'_>,
    edge_blocks: &mut [u32],
    reach: &mut [u32],
    block_count: &mut [u32],
)
    requires { (es : List Edge) × Reportable parents.now weights.now limit es ends.now lower.now
        (held division.old) edge_blocks.old reach.old block_count.old
        × (counts.now ≡ lower_counts (length parents.now) es) }
    ensures outcome { (es : List Edge) → Reportable parents.now weights.now limit es ends.now lower.now
        (held division.old) edge_blocks.old reach.old block_count.old
        → counts.now ≡ lower_counts (length parents.now) es
        → Spread parents.now weights.now limit (length division.old.loads.now) es
        (held division.new) reach.new }
    ensures same { SameTables division.old division.new }
{
    reaches(
        parents,
        counts,
        ends,
        lower,
        reach,
        division.carried,
        division.top,
        division.block,
        block_count,
        edge_blocks,
    );
    cut_and_pack(parents, weights, limit, division);
}

// Writes all that a report says of a net, and answers its bound, its volume and the even share. The edges are filed in the work tables,
// which end as zeros. `edges_taken` holds the edges' count by lower end until it is written: that is a number of edges, whatever an edge
// is charged.
pub fn write_report(
    parents: &[u32],
    weights: &[u32],
    limit: u32,
    edges: &[u32],
    division: &mut Division<'_>,
    figures: &mut Figures<'_>,
    ends: &mut [u32],
    jump: &mut [u32],
    lower: &mut [u32],
) -> Totals
    requires { Reportable parents.now weights.now limit (edges_of edges.now) ends.old lower.old
        (held division.old) figures.old.edge_blocks.now figures.old.reach.now figures.old.block_count.now
        × (length figures.old.edges_taken.now ≡ length parents.now) × (length jump.old ≡ length parents.now) }
    ensures outcome { ReportWritten (net parents.now weights.now) limit (length division.old.loads.now) (edges_of edges.now)
        (work_of ends.old jump.old lower.old) result
        (written_in division.new figures.new)
        (work_of ends.new jump.new lower.new) }
    ensures same { SameTables division.old division.new }
    ensures same_figures { SameFigures figures.old figures.new }
{
    let edge_blocks = &mut *figures.edge_blocks;
    let reach = &mut *figures.reach;
    let block_count = &mut *figures.block_count;
    let edges_taken = &mut *figures.edges_taken;
    bucket::count_lower(ends, lower, edges_taken);
    divide_and_reach(
        parents,
        weights,
        limit,
        edges_taken,
        ends,
        lower,
        division,
        edge_blocks,
        reach,
        block_count,
    );
    let top = &mut *division.top;
    let block = &mut *division.block;
    let loads = &mut *division.loads;
    cost::write_edge_blocks(edges, block, edge_blocks);
    block_count::write_block_counts(
        edges,
        block,
        loads.len() as u32,
        ends,
        lower,
        block_count,
        edges_taken,
        jump,
    );
    growth::clear(ends, jump, lower, 0);
    cost::sum_up(parents, top, reach, block_count, loads)
}
