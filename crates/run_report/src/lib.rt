// What a run prints of an order and edges that are not refused: the net is grown, divided and reported on. The tables of a step are its
// own, zeroed and at their full length: 1,000 vertices, 4,000 edges and 1,000 blocks. It lends the part of each that the run's own
// vertices, edges and blocks take.
#![tactic(auto)]

ghost use Rattle.std.specs.Prelude.{◌≡◌, false, ◌≤◌, length};
ghost use Rattle.game.specs.Edge.{ties as ties_of};
ghost use Rattle.game.specs.Net.{net};
ghost use Rattle.decimal.specs.Put.{PutText};
ghost use Rattle.refusal.specs.DivisionLimits.{bad_limits};
ghost use Rattle.relabel.specs.Relabel.{relabelled};
ghost use Rattle.run_report.specs.Steps.{Runnable, GrowRoom, RankedNet, Ready, net_text, text_room};

use divide::tables::Division;
use files::{EDGE_NUMBERS, EDGES, VERTICES};
use report_write::tables::Figures;

// The most blocks of a division.
const BLOCKS: usize = refusal::MAX_BLOCKS as usize;

// Vertices and edges together.
const BOTH: usize = VERTICES + EDGES;

// Relabels the edges by the order, and grows their net. No call is refused here, so their answers are not looked at.
fn grow_ranked(
    order: &[u32],
    edges: &[u32],
    ranked: &mut [u32],
    parents: &mut [u32],
    weights: &mut [u32],
)
    requires runnable { Runnable order.now edges.now }
    requires grow_room { GrowRoom order.now edges.now ranked.old (net parents.old weights.old) }
    ensures { RankedNet order.now edges.now ranked.new (net parents.new weights.new) }
{
    let n = order.len();
    let both = n + edge::count(edges);
    let mut inverse = [0u32; VERTICES];
    let mut ends = [0u32; VERTICES];
    let mut jump = [0u32; VERTICES];
    let mut lower = [0u32; BOTH];
    let _ = relabel::relabel(order, edges, ranked, &mut inverse[..n]);
    let _ = forest::start(parents, weights);
    let _ = forest::add(
        parents,
        weights,
        ranked,
        &mut ends[..n],
        &mut jump[..n],
        &mut lower[..both],
    );
}

// Reports on a net with its own edges, and writes the lines of the report.
fn report_on(
    order: &[u32],
    ranked: &[u32],
    parents: &[u32],
    weights: &[u32],
    limit: u32,
    blocks: u32,
    text: &mut [u8],
) -> usize
    requires ready { Ready order.now ranked.now limit blocks (net parents.now weights.now) }
    requires text_room_in_bounds { text_room ≤ length text.old }
    ensures { PutText text.old 0 (net_text order.now (ties_of ranked.now) limit blocks) text.new result }
{
    let n = order.len();
    let m = edge::count(ranked);
    let both = n + m;
    let k = blocks as usize;
    let mut carried = [0u32; VERTICES];
    let mut top = [0u32; VERTICES];
    let mut block = [0u32; VERTICES];
    let mut block_loads = [0u32; BLOCKS];
    let mut edge_blocks = [0u32; EDGES];
    let mut reach = [0u32; VERTICES];
    let mut block_count = [0u32; VERTICES];
    let mut edges_taken = [0u32; VERTICES];
    let mut compared_parents = [0u32; VERTICES];
    let mut compared_weights = [0u32; VERTICES];
    let mut ends = [0u32; VERTICES];
    let mut jump = [0u32; VERTICES];
    let mut lower = [0u32; BOTH];
    let mut division = Division {
        carried: &mut carried[..n],
        top: &mut top[..n],
        block: &mut block[..n],
        loads: &mut block_loads[..k],
    };
    let mut figures = Figures {
        edge_blocks: &mut edge_blocks[..m],
        reach: &mut reach[..n],
        block_count: &mut block_count[..n],
        edges_taken: &mut edges_taken[..n],
    };
    let answer = report::report(
        parents,
        weights,
        limit,
        blocks,
        ranked,
        &mut division,
        &mut figures,
        &mut compared_parents[..n],
        &mut compared_weights[..n],
        &mut ends[..n],
        &mut jump[..n],
        &mut lower[..both],
    );
    let Division { top, block, .. } = division;
    let Figures {
        reach,
        block_count,
        ..
    } = figures;
    lines::put_answer(
        answer,
        order,
        parents,
        weights,
        reach,
        top,
        block,
        block_count,
        text,
    )
}

// Grows the net of an order and edges by vertex number, and writes what its report says.
pub fn divide(order: &[u32], edges: &[u32], limit: u32, blocks: u32, text: &mut [u8]) -> usize
    requires runnable { Runnable order.now edges.now × (bad_limits limit blocks ≡ false) }
    requires text_room_in_bounds { text_room ≤ length text.old }
    ensures { PutText text.old 0 (net_text order.now (ties_of (relabelled order.now edges.now)) limit blocks)
        text.new result }
{
    let n = order.len();
    let numbers = edges.len();
    let mut ranked = [0u32; EDGE_NUMBERS];
    let mut parents = [0u32; VERTICES];
    let mut weights = [0u32; VERTICES];
    grow_ranked(
        order,
        edges,
        &mut ranked[..numbers],
        &mut parents[..n],
        &mut weights[..n],
    );
    report_on(
        order,
        &ranked[..numbers],
        &parents[..n],
        &weights[..n],
        limit,
        blocks,
        text,
    )
}
