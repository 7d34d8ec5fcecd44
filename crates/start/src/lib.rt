// The call start: a net with no edges.
#![tactic(auto)]

ghost use Rattle.std.specs.Prelude.{◌≡◌};
ghost use Rattle.game.specs.Net.{net};
ghost use Rattle.refusal.specs.Numbers.{code, verdict};
ghost use Rattle.refusal.specs.Outcome.{ended};
ghost use Rattle.start.specs.Start.{start_refusal, start_outcome};

use net::Net;
use refusal::Refusal;

// What starting is refused for.
#[tactic(auto, using(crate::proofs::Chain::early_returns), unfolding(crate::specs::Start::start_refusal))]
fn start_refusal(parents: &[u32], weights: &[u32]) -> Result<(), Refusal>
    ensures { code result ≡ start_refusal (net parents.now weights.now) }
{
    let n = parents.len();
    if refusal::bad_count(n) {
        return Err(Refusal::BadCount);
    }
    if weights.len() != n {
        return Err(Refusal::WrongLength);
    }
    Ok(())
}

// Starts a net with no edge, whatever the tables held: no vertex has a parent, and every weight is 0.
pub fn start(parents: &mut [u32], weights: &mut [u32]) -> Result<(), Refusal>
    ensures { ended (verdict result) (net parents.new weights.new) ≡ start_outcome (net parents.old weights.old) }
{
    start_refusal(parents, weights)?;
    parents.fill(Net::ABSENT);
    weights.fill(0);
    Ok(())
}
