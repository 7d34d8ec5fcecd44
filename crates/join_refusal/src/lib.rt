// What joining is refused for, found by reading the tables of both nets.
#![tactic(auto)]

ghost use Rattle.std.specs.Prelude.{◌≡◌, ◌+◌, ◌<◌};
ghost use Rattle.game.specs.Net.{net};
ghost use Rattle.refusal.specs.Numbers.{code};
ghost use Rattle.growth.specs.Work.{with_work, work_of};
ghost use Rattle.join_refusal.specs.Refused.{join_refusal};

use net::Net;
use refusal::Refusal;

// What joining is refused for.
#[tactic(auto, using(crate::proofs::Chain::early_returns), unfolding(crate::specs::Refused::join_refusal, growth::specs::Work::bad_work))]
pub fn join_refusal(
    parents: &[u32],
    weights: &[u32],
    other_parents: &[u32],
    other_weights: &[u32],
    ends: &[u32],
    jump: &[u32],
    lower: &[u32],
) -> Result<(), Refusal>
    ensures { code result ≡ join_refusal (with_work (net parents.now weights.now) (work_of ends.now jump.now lower.now))
        (net other_parents.now other_weights.now) }
{
    let n = parents.len();
    let m = other_parents.len();
    if refusal::bad_count(n) {
        return Err(Refusal::BadCount);
    }
    if refusal::bad_count(m) {
        return Err(Refusal::BadCount);
    }
    if weights.len() != n {
        return Err(Refusal::WrongLength);
    }
    if other_weights.len() != m {
        return Err(Refusal::WrongLength);
    }
    if growth::bad_work(n, n + m, ends.len(), jump.len(), lower.len()) {
        return Err(Refusal::WrongLength);
    }
    if m != n {
        return Err(Refusal::UnlikeCounts);
    }
    let one = Net::of(weights);
    if one.is_damaged(parents) {
        return Err(Refusal::Damaged);
    }
    let other = Net::of(other_weights);
    if other.is_damaged(other_parents) {
        return Err(Refusal::Damaged);
    }
    if Net::MAX_TOTAL < one.total + other.total {
        return Err(Refusal::Full);
    }
    Ok(())
}
