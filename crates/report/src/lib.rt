// The call report: a net divided, and what the division costs. Beside the tables of divide it writes the block of each edge, and of each
// vertex the reach, the block count and how many of its edges that took. It answers the bound and the volume of communication between
// the blocks, and the even share of a block.
//
// It decides by reading alone, up to 22. Then it grows the net of the edges into the comparison tables and compares; only then does it
// write anything else. The list is filed once, for growing; what is written is read from the same buckets.
#![tactic(auto)]

ghost use Rattle.std.specs.Prelude.{◌≡◌};
ghost use Rattle.game.specs.Net.{net};
ghost use Rattle.refusal.specs.Numbers.{verdict};
ghost use Rattle.refusal.specs.Outcome.{ended};
ghost use Rattle.divide.specs.Tables.{SameTables};
ghost use Rattle.growth.specs.Work.{work_of};
ghost use Rattle.report_write.specs.Tables.{written_in, SameFigures};
ghost use Rattle.report.specs.Report.{lent, report_outcome};

use cost::Totals;
use divide::tables::Division;
use refusal::Refusal;
use report_refusal::{report_early, wrong_lengths};
use report_write::tables::Figures;
use report_write::write_report;

// Divides a net and reports what the division costs, given the net's own edges. Beside Divide's tables it writes the block of each
// edge, and of each vertex the reach, the block count and how many of its edges that took, and answers the bound, the volume and the even
// share. The comparison tables end holding the net of the edges. The work tables take n, n and n + m entries for n vertices and m edges,
// and end as zeros. A refused call leaves every table as it was, but for these five after 23.
pub fn report(
    parents: &[u32],
    weights: &[u32],
    limit: u32,
    blocks: u32,
    edges: &[u32],
    division: &mut Division<'_>,
    figures: &mut Figures<'_>,
    compared_parents: &mut [u32],
    compared_weights: &mut [u32],
    ends: &mut [u32],
    jump: &mut [u32],
    lower: &mut [u32],
) -> Result<Totals, Refusal>
    ensures outcome { ended (verdict result)
        (lent (written_in division.new figures.new)
        (net compared_parents.new compared_weights.new)
        (work_of ends.new jump.new lower.new))
        ≡ report_outcome (net parents.now weights.now) limit blocks edges.now
        (lent (written_in division.old figures.old)
        (net compared_parents.old compared_weights.old)
        (work_of ends.old jump.old lower.old)) }
    ensures same { SameTables division.old division.new }
    ensures same_figures { SameFigures figures.old figures.new }
{
    let wrong = wrong_lengths(
        blocks,
        parents,
        weights,
        edges,
        division.carried.len(),
        division.top.len(),
        division.block.len(),
        division.loads.len(),
        figures.edge_blocks.len(),
        figures.reach.len(),
        figures.block_count.len(),
        figures.edges_taken.len(),
        compared_parents.len(),
        compared_weights.len(),
        ends.len(),
        jump.len(),
        lower.len(),
    );
    report_early(parents, weights, limit, blocks, edges, wrong)?;
    if !compare::compare(
        parents,
        weights,
        edges,
        compared_parents,
        compared_weights,
        ends,
        jump,
        lower,
    ) {
        return Err(Refusal::OtherEdges);
    }
    Ok(write_report(
        parents, weights, limit, edges, division, figures, ends, jump, lower,
    ))
}
