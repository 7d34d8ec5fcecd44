// Relabelling: a list of ties in vertex numbers becomes one in ranks, by an order.
#![tactic(auto)]

ghost use Rattle.std.specs.Prelude.{◌≡◌};
ghost use Rattle.refusal.specs.Numbers.{code, verdict};
ghost use Rattle.refusal.specs.Outcome.{ended};
ghost use Rattle.relabel.specs.Relabel.{relabel_tables, relabel_refusal, relabel_outcome};
ghost use Rattle.relabel.specs.Steps.{LookUp, looked_up};

use order::{bad_order, invert};
use refusal::{Refusal, bad_count, check_ties};

// What a call is refused for. It only reads, and of the tables to be written only their lengths.
#[tactic(auto, unfolding(crate::specs::Relabel::relabel_refusal, refusal::specs::Refusal::first, refusal::specs::Refusal::given, refusal::specs::Refusal::wrong_length))]
fn relabel_refusal(order: &[u32], edges: &[u32], out: usize, inverse: usize) -> Result<(), Refusal>
    ensures { code result ≡ relabel_refusal order.now edges.now out inverse }
{
    let n = order.len();
    if bad_count(n) {
        return Err(Refusal::BadCount);
    }
    if refusal::not_whole(edges) {
        return Err(Refusal::WrongLength);
    }
    if out != edges.len() {
        return Err(Refusal::WrongLength);
    }
    if inverse != n {
        return Err(Refusal::WrongLength);
    }
    if bad_order(order) {
        return Err(Refusal::BadOrder);
    }
    check_ties(n, edges)
}

// Writes each tie with its ends looked up in a table, and its rows as they are.
fn look_up(ranks: &[u32], edges: &[u32], out: &mut [u32])
    requires { LookUp ranks.now edges.now out.old }
    ensures { out.new ≡ looked_up ranks.now edges.now }
{
    for (i, tie) in edge::ties(edges).enumerate() {
        let a = table::read_at(ranks, tie.a);
        let b = table::read_at(ranks, tie.b);
        edge::put(out, i, a, b, tie.rows);
    }
}

// Translates an edge list from vertex numbers to ranks, by an order, into `out`; the rows are copied. The work table `inverse`, as long as
// the order, ends holding the rank of each vertex by its number. A refused call leaves both as they came.
pub fn relabel(
    order: &[u32],
    edges: &[u32],
    out: &mut [u32],
    inverse: &mut [u32],
) -> Result<(), Refusal>
    ensures { ended (verdict result) (relabel_tables out.new inverse.new) ≡ relabel_outcome order.now edges.now (relabel_tables out.old inverse.old) }
{
    relabel_refusal(order, edges, out.len(), inverse.len())?;
    invert(order, inverse);
    look_up(inverse, edges, out);
    Ok(())
}
