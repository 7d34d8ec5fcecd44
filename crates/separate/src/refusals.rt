// What listing the vertices between two is refused for by reading alone: 1, 2, 30, 4 of a rank, 4, 5 or 32, and 20.
ghost use Rattle.std.specs.Prelude.{◌≡◌, false, length};
ghost use Rattle.game.specs.Net.{net};
ghost use Rattle.refusal.specs.Numbers.{code};
ghost use Rattle.separate.specs.Refused.{separate_early};

use net::Net;
use refusal::Refusal;

// Whether the call is refused by reading alone, and for what. Whether a length is wrong was found out before.
#[tactic(auto, unfolding(crate::specs::Refused::separate_early, refusal::specs::Refusal::first, refusal::specs::Refusal::given))]
pub fn separate_early(
    parents: &[u32],
    weights: &[u32],
    one: u32,
    other: u32,
    edges: &[u32],
    wrong: bool,
) -> Result<(), Refusal>
    requires { wrong ≡ false → length weights.now ≡ length parents.now }
    ensures { code result ≡ separate_early (net parents.now weights.now) one other edges.now wrong }
{
    let n = parents.len();
    if refusal::bad_count(n) {
        return Err(Refusal::BadCount);
    }
    if wrong {
        return Err(Refusal::WrongLength);
    }
    if Net::of(weights).is_damaged(parents) {
        return Err(Refusal::Damaged);
    }
    if (n <= one as usize) | (n <= other as usize) {
        return Err(Refusal::BadVertex);
    }
    refusal::check_list(n, edges)
}
