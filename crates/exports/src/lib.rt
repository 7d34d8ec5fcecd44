// The calls as C takes them, which `exports_c` hands to C under the same names: each with its answer as a number, 0 if it was accepted.
// No function here asks anything of its caller that its types do not say.
#![tactic(auto)]

ghost use Rattle.std.specs.Prelude.{◌≡◌};
ghost use Rattle.game.specs.Net.{net};
ghost use Rattle.growth.specs.Work.{with_work, work_of};
ghost use Rattle.start.specs.Start.{start_outcome};
ghost use Rattle.add.specs.Add.{add_outcome};
ghost use Rattle.join.specs.Join.{join_outcome};
ghost use Rattle.save.specs.Save.{save_outcome};
ghost use Rattle.read.specs.Read.{read_outcome};
ghost use Rattle.divide.specs.Divide.{division_of, divide_outcome};
ghost use Rattle.relabel.specs.Relabel.{relabel_tables, relabel_outcome};
ghost use Rattle.index.specs.Index.{index};
ghost use Rattle.index.specs.Build.{index_outcome};
ghost use Rattle.query.specs.Query.{place_of, query_place};
ghost use Rattle.report_write.specs.Written.{written};
ghost use Rattle.report.specs.Report.{lent, report_outcome};
ghost use Rattle.separate.specs.Separate.{separate_tables, separate_outcome};
ghost use Rattle.cells.specs.Returned.{returned, handed, filled_cells, cells, separator_cells, handed_totals, handed_rank, handed_separator};

use cells::{hand_place, hand_rank, hand_separator, hand_totals, number};
use divide::tables::Division;
use report_write::tables::Figures;

pub fn niqastul_relabel(order: &[u32], edges: &[u32], out: &mut [u32], inverse: &mut [u32]) -> u32
    ensures { returned result (relabel_tables out.new inverse.new)
        ≡ handed (relabel_outcome order.now edges.now (relabel_tables out.old inverse.old)) }
{
    number(relabel::relabel(order, edges, out, inverse))
}

pub fn niqastul_start(parents: &mut [u32], weights: &mut [u32]) -> u32
    ensures { returned result (net parents.new weights.new)
        ≡ handed (start_outcome (net parents.old weights.old)) }
{
    number(forest::start(parents, weights))
}

// Of an addition and a join the lowest vertex that moved goes into the cell, absent if none did.
pub fn niqastul_add(
    parents: &mut [u32],
    weights: &mut [u32],
    edges: &[u32],
    ends: &mut [u32],
    jump: &mut [u32],
    lower: &mut [u32],
    moved: &mut u32,
) -> u32
    ensures { filled_cells result moved.new (with_work (net parents.new weights.new) (work_of ends.new jump.new lower.new))
        ≡ handed_rank moved.old (add_outcome (with_work (net parents.old weights.old) (work_of ends.old jump.old lower.old)) edges.now) }
{
    let answer = forest::add(parents, weights, edges, ends, jump, lower);
    hand_rank(answer, moved)
}

pub fn niqastul_join(
    parents: &mut [u32],
    weights: &mut [u32],
    other_parents: &[u32],
    other_weights: &[u32],
    ends: &mut [u32],
    jump: &mut [u32],
    lower: &mut [u32],
    moved: &mut u32,
) -> u32
    ensures { filled_cells result moved.new (with_work (net parents.new weights.new) (work_of ends.new jump.new lower.new))
        ≡ handed_rank moved.old (join_outcome (with_work (net parents.old weights.old) (work_of ends.old jump.old lower.old)) (net other_parents.now other_weights.now)) }
{
    let answer = forest::join(
        parents,
        weights,
        other_parents,
        other_weights,
        ends,
        jump,
        lower,
    );
    hand_rank(answer, moved)
}

pub fn niqastul_save(parents: &[u32], weights: &[u32], bytes: &mut [u8]) -> u32
    ensures { returned result bytes.new
        ≡ handed (save_outcome (net parents.now weights.now) bytes.old) }
{
    number(linkfile::save(parents, weights, bytes))
}

pub fn niqastul_read(parents: &mut [u32], weights: &mut [u32], bytes: &[u8]) -> u32
    ensures { returned result (net parents.new weights.new)
        ≡ handed (read_outcome (net parents.old weights.old) bytes.now) }
{
    number(linkfile::read(parents, weights, bytes))
}

pub fn niqastul_divide(
    parents: &[u32],
    weights: &[u32],
    limit: u32,
    blocks: u32,
    carried: &mut [u32],
    top: &mut [u32],
    block: &mut [u32],
    block_loads: &mut [u32],
) -> u32
    ensures { returned result (division_of carried.new top.new block.new block_loads.new)
        ≡ handed (divide_outcome (net parents.now weights.now) limit blocks (division_of carried.old top.old block.old block_loads.old)) }
{
    let mut division = Division {
        carried,
        top,
        block,
        loads: block_loads,
    };
    number(divide::divide(parents, weights, limit, blocks, &mut division))
}

// The figures of an accepted report go into the four cells; a refused one leaves the cells as they were.
pub fn niqastul_report(
    parents: &[u32],
    weights: &[u32],
    limit: u32,
    blocks: u32,
    edges: &[u32],
    carried: &mut [u32],
    top: &mut [u32],
    block: &mut [u32],
    block_loads: &mut [u32],
    edge_blocks: &mut [u32],
    reach: &mut [u32],
    block_count: &mut [u32],
    edges_taken: &mut [u32],
    compared_parents: &mut [u32],
    compared_weights: &mut [u32],
    ends: &mut [u32],
    jump: &mut [u32],
    lower: &mut [u32],
    bound: &mut u64,
    volume: &mut u64,
    quotient: &mut u32,
    remainder: &mut u32,
) -> u32
    ensures { filled_cells result (cells bound.new volume.new quotient.new remainder.new)
        (lent (written (division_of carried.new top.new block.new block_loads.new) edge_blocks.new reach.new block_count.new edges_taken.new)
        (net compared_parents.new compared_weights.new)
        (work_of ends.new jump.new lower.new))
        ≡ handed_totals (cells bound.old volume.old quotient.old remainder.old)
        (report_outcome (net parents.now weights.now) limit blocks edges.now
        (lent (written (division_of carried.old top.old block.old block_loads.old) edge_blocks.old reach.old block_count.old edges_taken.old)
        (net compared_parents.old compared_weights.old)
        (work_of ends.old jump.old lower.old))) }
{
    let mut division = Division {
        carried,
        top,
        block,
        loads: block_loads,
    };
    let mut figures = Figures {
        edge_blocks,
        reach,
        block_count,
        edges_taken,
    };
    let answer = report::report(
        parents,
        weights,
        limit,
        blocks,
        edges,
        &mut division,
        &mut figures,
        compared_parents,
        compared_weights,
        ends,
        jump,
        lower,
    );
    hand_totals(answer, bound, volume, quotient, remainder)
}

pub fn niqastul_index(
    old_edges: &[u32],
    added: &[u32],
    starts: &mut [u32],
    neighbours: &mut [u32],
) -> u32
    ensures { returned result (index starts.new neighbours.new)
        ≡ handed (index_outcome (index starts.old neighbours.old) old_edges.now added.now) }
{
    number(index::index(old_edges, added, starts, neighbours))
}

// The part of the index that a query hands back is told by its place and its length.
pub fn niqastul_query(
    starts: &[u32],
    neighbours: &[u32],
    rank: u32,
    first: &mut u64,
    count: &mut u64,
) -> u32
    ensures { place_of result first.new count.new ≡ query_place (index starts.now neighbours.now) rank }
{
    let answer = query::locate(starts, neighbours, rank);
    hand_place(answer, first, count)
}

// How many vertices are above both, and the lowest of them, go into the two cells, absent for none; a refused call leaves the cells as they
// were.
pub fn niqastul_separate(
    parents: &[u32],
    weights: &[u32],
    one: u32,
    other: u32,
    edges: &[u32],
    separator: &mut [u32],
    compared_parents: &mut [u32],
    compared_weights: &mut [u32],
    ends: &mut [u32],
    jump: &mut [u32],
    lower: &mut [u32],
    count: &mut u32,
    lowest: &mut u32,
) -> u32
    ensures { filled_cells result (separator_cells count.new lowest.new)
        (separate_tables separator.new (net compared_parents.new compared_weights.new) (work_of ends.new jump.new lower.new))
        ≡ handed_separator (separator_cells count.old lowest.old)
        (separate_outcome (net parents.now weights.now) one other edges.now
        (separate_tables separator.old (net compared_parents.old compared_weights.old) (work_of ends.old jump.old lower.old))) }
{
    let answer = separate::separate(
        parents,
        weights,
        one,
        other,
        edges,
        separator,
        compared_parents,
        compared_weights,
        ends,
        jump,
        lower,
    );
    hand_separator(answer, count, lowest)
}
