// The interface for C and for the languages that call C (include/niqastul.h): each function of `exports` under its own name, with its
// contract said again, and nothing else. A table passes as a pointer and a length. Nothing is checked at this boundary, so no function
// here asks anything of its caller that its types do not say: tables are readable or writable over their length, and one that is written
// overlaps no other.
#![tactic(auto)]

ghost use Rattle.std.specs.Prelude.{◌≡◌};
ghost use Rattle.game.specs.Net.{net};
ghost use Rattle.growth.specs.Work.{with_work, work_of};
ghost use Rattle.start.specs.Start.{start_outcome};
ghost use Rattle.add.specs.Add.{add_outcome};
ghost use Rattle.join.specs.Join.{join_outcome};
ghost use Rattle.save.specs.Save.{save_outcome};
ghost use Rattle.read.specs.Read.{read_outcome};
ghost use Rattle.divide.specs.Divide.{division_of, divide_outcome};
ghost use Rattle.relabel.specs.Relabel.{relabel_tables, relabel_outcome};
ghost use Rattle.index.specs.Index.{index};
ghost use Rattle.index.specs.Build.{index_outcome};
ghost use Rattle.query.specs.Query.{place_of, query_place};
ghost use Rattle.report_write.specs.Written.{written};
ghost use Rattle.report.specs.Report.{lent, report_outcome};
ghost use Rattle.separate.specs.Separate.{separate_tables, separate_outcome};
ghost use Rattle.cells.specs.Returned.{returned, handed, filled_cells, cells, separator_cells, handed_totals, handed_rank, handed_separator};

#[unsafe(no_mangle)]
pub extern "C" fn niqastul_relabel(
    order: &[u32],
    edges: &[u32],
    out: &mut [u32],
    inverse: &mut [u32],
) -> u32
    ensures { returned result (relabel_tables out.new inverse.new)
        ≡ handed (relabel_outcome order.now edges.now (relabel_tables out.old inverse.old)) }
{
    exports::niqastul_relabel(order, edges, out, inverse)
}

#[unsafe(no_mangle)]
pub extern "C" fn niqastul_start(parents: &mut [u32], weights: &mut [u32]) -> u32
    ensures { returned result (net parents.new weights.new)
        ≡ handed (start_outcome (net parents.old weights.old)) }
{
    exports::niqastul_start(parents, weights)
}

// Of an addition and a join the lowest vertex that moved goes into the cell, absent if none did.
#[unsafe(no_mangle)]
pub extern "C" fn niqastul_add(
    parents: &mut [u32],
    weights: &mut [u32],
    edges: &[u32],
    ends: &mut [u32],
    jump: &mut [u32],
    lower: &mut [u32],
    moved: &mut u32,
) -> u32
    ensures { filled_cells result moved.new (with_work (net parents.new weights.new) (work_of ends.new jump.new lower.new))
        ≡ handed_rank moved.old (add_outcome (with_work (net parents.old weights.old) (work_of ends.old jump.old lower.old)) edges.now) }
{
    exports::niqastul_add(parents, weights, edges, ends, jump, lower, moved)
}

#[unsafe(no_mangle)]
pub extern "C" fn niqastul_join(
    parents: &mut [u32],
    weights: &mut [u32],
    other_parents: &[u32],
    other_weights: &[u32],
    ends: &mut [u32],
    jump: &mut [u32],
    lower: &mut [u32],
    moved: &mut u32,
) -> u32
    ensures { filled_cells result moved.new (with_work (net parents.new weights.new) (work_of ends.new jump.new lower.new))
        ≡ handed_rank moved.old (join_outcome (with_work (net parents.old weights.old) (work_of ends.old jump.old lower.old)) (net other_parents.now other_weights.now)) }
{
    exports::niqastul_join(
        parents,
        weights,
        other_parents,
        other_weights,
        ends,
        jump,
        lower,
        moved,
    )
}

#[unsafe(no_mangle)]
pub extern "C" fn niqastul_save(parents: &[u32], weights: &[u32], bytes: &mut [u8]) -> u32
    ensures { returned result bytes.new
        ≡ handed (save_outcome (net parents.now weights.now) bytes.old) }
{
    exports::niqastul_save(parents, weights, bytes)
}

#[unsafe(no_mangle)]
pub extern "C" fn niqastul_read(parents: &mut [u32], weights: &mut [u32], bytes: &[u8]) -> u32
    ensures { returned result (net parents.new weights.new)
        ≡ handed (read_outcome (net parents.old weights.old) bytes.now) }
{
    exports::niqastul_read(parents, weights, bytes)
}

#[unsafe(no_mangle)]
pub extern "C" fn niqastul_divide(
    parents: &[u32],
    weights: &[u32],
    limit: u32,
    blocks: u32,
    carried: &mut [u32],
    top: &mut [u32],
    block: &mut [u32],
    block_loads: &mut [u32],
) -> u32
    ensures { returned result (division_of carried.new top.new block.new block_loads.new)
        ≡ handed (divide_outcome (net parents.now weights.now) limit blocks (division_of carried.old top.old block.old block_loads.old)) }
{
    exports::niqastul_divide(
        parents,
        weights,
        limit,
        blocks,
        carried,
        top,
        block,
        block_loads,
    )
}

// The figures of an accepted report go into the four cells; a refused one leaves the cells as they were.
#[unsafe(no_mangle)]
pub extern "C" fn niqastul_report(
    parents: &[u32],
    weights: &[u32],
    limit: u32,
    blocks: u32,
    edges: &[u32],
    carried: &mut [u32],
    top: &mut [u32],
    block: &mut [u32],
    block_loads: &mut [u32],
    edge_blocks: &mut [u32],
    reach: &mut [u32],
    block_count: &mut [u32],
    edges_taken: &mut [u32],
    compared_parents: &mut [u32],
    compared_weights: &mut [u32],
    ends: &mut [u32],
    jump: &mut [u32],
    lower: &mut [u32],
    bound: &mut u64,
    volume: &mut u64,
    quotient: &mut u32,
    remainder: &mut u32,
) -> u32
    ensures { filled_cells result (cells bound.new volume.new quotient.new remainder.new)
        (lent (written (division_of carried.new top.new block.new block_loads.new) edge_blocks.new reach.new block_count.new edges_taken.new)
        (net compared_parents.new compared_weights.new)
        (work_of ends.new jump.new lower.new))
        ≡ handed_totals (cells bound.old volume.old quotient.old remainder.old)
        (report_outcome (net parents.now weights.now) limit blocks edges.now
        (lent (written (division_of carried.old top.old block.old block_loads.old) edge_blocks.old reach.old block_count.old edges_taken.old)
        (net compared_parents.old compared_weights.old)
        (work_of ends.old jump.old lower.old))) }
{
    exports::niqastul_report(
        parents,
        weights,
        limit,
        blocks,
        edges,
        carried,
        top,
        block,
        block_loads,
        edge_blocks,
        reach,
        block_count,
        edges_taken,
        compared_parents,
        compared_weights,
        ends,
        jump,
        lower,
        bound,
        volume,
        quotient,
        remainder,
    )
}

#[unsafe(no_mangle)]
pub extern "C" fn niqastul_index(
    old_edges: &[u32],
    added: &[u32],
    starts: &mut [u32],
    neighbours: &mut [u32],
) -> u32
    ensures { returned result (index starts.new neighbours.new)
        ≡ handed (index_outcome (index starts.old neighbours.old) old_edges.now added.now) }
{
    exports::niqastul_index(old_edges, added, starts, neighbours)
}

// The part of the index that a query hands back is told by its place and its length.
#[unsafe(no_mangle)]
pub extern "C" fn niqastul_query(
    starts: &[u32],
    neighbours: &[u32],
    rank: u32,
    first: &mut u64,
    count: &mut u64,
) -> u32
    ensures { place_of result first.new count.new ≡ query_place (index starts.now neighbours.now) rank }
{
    exports::niqastul_query(starts, neighbours, rank, first, count)
}

// How many vertices are above both, and the lowest of them, go into the two cells, absent for none; a refused call leaves the cells as they
// were.
#[unsafe(no_mangle)]
pub extern "C" fn niqastul_separate(
    parents: &[u32],
    weights: &[u32],
    one: u32,
    other: u32,
    edges: &[u32],
    separator: &mut [u32],
    compared_parents: &mut [u32],
    compared_weights: &mut [u32],
    ends: &mut [u32],
    jump: &mut [u32],
    lower: &mut [u32],
    count: &mut u32,
    lowest: &mut u32,
) -> u32
    ensures { filled_cells result (separator_cells count.new lowest.new)
        (separate_tables separator.new (net compared_parents.new compared_weights.new) (work_of ends.new jump.new lower.new))
        ≡ handed_separator (separator_cells count.old lowest.old)
        (separate_outcome (net parents.now weights.now) one other edges.now
        (separate_tables separator.old (net compared_parents.old compared_weights.old) (work_of ends.old jump.old lower.old))) }
{
    exports::niqastul_separate(
        parents,
        weights,
        one,
        other,
        edges,
        separator,
        compared_parents,
        compared_weights,
        ends,
        jump,
        lower,
        count,
        lowest,
    )
}
