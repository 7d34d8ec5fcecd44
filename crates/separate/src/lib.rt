// The call separate: what lies between two vertices (document 02, Paper 5), that is, the vertices above both, given the net's own edges.
// Like a report it decides by reading alone, up to 20; then it grows the net of the edges into the comparison tables and compares; only
// then does it walk up from the two.
#![tactic(auto)]

mod refusals;

ghost use Rattle.std.specs.Prelude.{◌≡◌};
ghost use Rattle.game.specs.Net.{net};
ghost use Rattle.refusal.specs.Numbers.{verdict};
ghost use Rattle.refusal.specs.Outcome.{ended};
ghost use Rattle.growth.specs.Work.{work_of};
ghost use Rattle.separate.specs.Separate.{separate_tables, separate_outcome};

use ancestry::Separator;
use refusal::Refusal;

// Lists the vertices above both of two vertices at the front of a table, lowest first, given the net's own edges, and answers how many these
// are and the lowest. The comparison tables end holding the net of the edges. The work tables take n, n and n + m entries for n vertices and
// m edges, and end as zeros. A refused call leaves every table as it was, but for these five after 23 and 31.
pub fn separate(
    parents: &[u32],
    weights: &[u32],
    one: u32,
    other: u32,
    edges: &[u32],
    separator: &mut [u32],
    compared_parents: &mut [u32],
    compared_weights: &mut [u32],
    ends: &mut [u32],
    jump: &mut [u32],
    lower: &mut [u32],
) -> Result<Separator, Refusal>
    ensures { ended (verdict result)
        (separate_tables separator.new (net compared_parents.new compared_weights.new) (work_of ends.new jump.new lower.new))
        ≡ separate_outcome (net parents.now weights.now) one other edges.now
        (separate_tables separator.old (net compared_parents.old compared_weights.old) (work_of ends.old jump.old lower.old)) }
{
    let n = parents.len();
    let wrong = (weights.len() != n)
        | (separator.len() != n)
        | compare::wrong_compared(
            n,
            n + edge::count(edges),
            compared_parents.len(),
            compared_weights.len(),
            ends.len(),
            jump.len(),
            lower.len(),
        )
        | refusal::not_whole(edges);
    refusals::separate_early(parents, weights, one, other, edges, wrong)?;
    if !compare::is_own(
        parents,
        weights,
        edges,
        compared_parents,
        compared_weights,
        ends,
        jump,
        lower,
    ) {
        return Err(Refusal::OtherEdges);
    }
    ancestry::list_common(parents, one, other, separator)
}
