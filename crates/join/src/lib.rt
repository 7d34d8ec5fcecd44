// The call join: a second net taken into a first.
#![tactic(auto)]

ghost use Rattle.std.specs.Prelude.{◌≡◌};
ghost use Rattle.game.specs.Net.{net};
ghost use Rattle.growth.specs.Work.{with_work, work_of};
ghost use Rattle.refusal.specs.Numbers.{verdict};
ghost use Rattle.refusal.specs.Outcome.{ended};
ghost use Rattle.join.specs.Join.{join_outcome};

use join_refusal::join_refusal;
use refusal::Refusal;

// Joins a second net into a first: the parents become those of the elimination game on the links of both, and the weights are
// summed. The work tables take n, n and 2 n entries; they end as zeros. Answers where the first net's forest moved.
pub fn join(
    parents: &mut [u32],
    weights: &mut [u32],
    other_parents: &[u32],
    other_weights: &[u32],
    ends: &mut [u32],
    jump: &mut [u32],
    lower: &mut [u32],
) -> Result<Option<u32>, Refusal>
    ensures { ended (verdict result) (with_work (net parents.new weights.new) (work_of ends.new jump.new lower.new))
        ≡ join_outcome (with_work (net parents.old weights.old) (work_of ends.old jump.old lower.old))
        (net other_parents.now other_weights.now) }
{
    join_refusal(
        parents,
        weights,
        other_parents,
        other_weights,
        ends,
        jump,
        lower,
    )?;
    table::add_all(weights, other_weights);
    bucket::file_links(parents, other_parents, ends, lower);
    let lowest = growth::grow(parents, true, ends, jump, lower);
    Ok(moved::moved_at(lowest))
}
