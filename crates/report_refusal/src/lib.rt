// What Report is refused for before anything is compared: 1, 2, 8, 30, 4, 5 or 32, 20 and 22, found by reading alone.
#![tactic(auto)]

ghost use Rattle.std.specs.Prelude.{◌≡◌, false, ◌||◌, length};
ghost use Rattle.game.specs.Net.{net};
ghost use Rattle.refusal.specs.Refusal.{wrong_length};
ghost use Rattle.refusal.specs.Numbers.{code};
ghost use Rattle.report_refusal.specs.Refused.{report_early};
ghost use Rattle.report_refusal.specs.Steps.{wrong_lengths};

use net::Net;
use refusal::Refusal;

// Whether one of the tables that a division does not know has another length than it needs: n entries for the vertices, m for the edges.
fn wrong_figures(
    n: usize,
    m: usize,
    edge_blocks: usize,
    reach: usize,
    block_count: usize,
    edges_taken: usize,
) -> bool
    ensures { result ≡ (wrong_length edge_blocks m || wrong_length reach n || wrong_length block_count n || wrong_length edges_taken n) }
{
    (edge_blocks != m) | (reach != n) | (block_count != n) | (edges_taken != n)
}

// Whether a table of the net or one that is lent for a report, given by its length, or the list of edges is not as long as it has to be.
pub fn wrong_lengths(
    blocks: u32,
    parents: &[u32],
    weights: &[u32],
    edges: &[u32],
    carried: usize,
    top: usize,
    block: usize,
    block_loads: usize,
    edge_blocks: usize,
    reach: usize,
    block_count: usize,
    edges_taken: usize,
    compared_parents: usize,
    compared_weights: usize,
    ends: usize,
    jump: usize,
    lower: usize,
) -> bool
    ensures { result ≡ wrong_lengths blocks parents.now weights.now edges.now carried top block block_loads edge_blocks reach block_count edges_taken compared_parents compared_weights ends jump lower }
{
    let n = parents.len();
    let m = edge::count(edges);
    divide::wrong_tables(
        n,
        blocks as usize,
        weights.len(),
        carried,
        top,
        block,
        block_loads,
    ) | wrong_figures(n, m, edge_blocks, reach, block_count, edges_taken)
        | compare::wrong_compared(
            n,
            n + m,
            compared_parents,
            compared_weights,
            ends,
            jump,
            lower,
        )
        | refusal::not_whole(edges)
}

// What Report is refused for before anything is compared. Whether a length is wrong was found out before.
pub fn report_early(
    parents: &[u32],
    weights: &[u32],
    limit: u32,
    blocks: u32,
    edges: &[u32],
    wrong: bool,
) -> Result<(), Refusal>
    requires { wrong ≡ false → length weights.now ≡ length parents.now }
    ensures { code result ≡ report_early (net parents.now weights.now) limit blocks edges.now wrong }
{
    let n = parents.len();
    if refusal::bad_count(n) {
        return Err(Refusal::BadCount);
    }
    if wrong {
        return Err(Refusal::WrongLength);
    }
    if refusal::bad_limits(limit, blocks) {
        return Err(Refusal::BadLimit);
    }
    if Net::of(weights).is_damaged(parents) {
        return Err(Refusal::Damaged);
    }
    refusal::check_list(n, edges)?;
    if refusal::too_heavy(limit, weights) {
        return Err(Refusal::TooHeavy);
    }
    Ok(())
}
