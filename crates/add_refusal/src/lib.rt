// What adding is refused for: by the tables, which are read first, and then by the list. A list that is to be counted by upper end is
// counted in the sweep that finds its faults, and its rows are charged in the same sweep.
#![tactic(auto)]

ghost use Rattle.std.specs.Prelude.{◌≡◌, true, ◌≤◌};
ghost use Rattle.game.specs.Net.{net};
ghost use Rattle.refusal.specs.Limits.{max_total};
ghost use Rattle.refusal.specs.Numbers.{code};
ghost use Rattle.growth.specs.Work.{with_work, work_of};
ghost use Rattle.add_refusal.specs.Steps.{LightList, TablesRead, ListReadable, ListRead};

use net::Net;
use refusal::Refusal;

// What the tables tell before the list is read: what adding is refused for, or the net's total.
#[tactic(auto, using(crate::proofs::Chain::early_returns), unfolding(crate::specs::Refused::add_refusal, growth::specs::Work::bad_work))]
pub fn read_tables(
    parents: &[u32],
    weights: &[u32],
    edges: &[u32],
    ends: &[u32],
    jump: &[u32],
    lower: &[u32],
) -> Result<u64, Refusal>
    ensures { TablesRead (with_work (net parents.now weights.now) (work_of ends.now jump.now lower.now)) edges.now result }
{
    let n = parents.len();
    if refusal::bad_count(n) {
        return Err(Refusal::BadCount);
    }
    if weights.len() != n {
        return Err(Refusal::WrongLength);
    }
    if refusal::not_whole(edges) {
        return Err(Refusal::WrongLength);
    }
    let m = edge::count(edges);
    if growth::bad_work(n, n + m, ends.len(), jump.len(), lower.len()) {
        return Err(Refusal::WrongLength);
    }
    let net = Net::of(weights);
    if net.is_damaged(parents) {
        return Err(Refusal::Damaged);
    }
    Ok(net.total)
}

// Whether a list of m ties cannot bring a total above the limit, whatever their rows. A list that is put on an empty net is light, if it is
// not too long: so nearly every list that is long is.
pub fn is_light(total: u64, m: usize) -> bool
    requires { total ≤ max_total }
    ensures { result ≡ true → LightList total m }
{
    if refusal::MAX_EDGES < m {
        return false;
    }
    total + refusal::MAX_ROWS as u64 * m as u64 <= Net::MAX_TOTAL
}

// What the list is refused for. A list that is to be counted is light, so that its faults alone decide; if it has none,
// the table of ends has its counts, and the table of jumps what each vertex is charged.
pub fn read_list(
    edges: &[u32],
    ends: &mut [u32],
    jump: &mut [u32],
    total: u64,
    counted: bool,
) -> Result<(), Refusal>
    requires { ListReadable edges.now total counted ends.old jump.old }
    ensures { ListRead edges.now total counted ends.old jump.old ends.new jump.new (code result) }
{
    if counted {
        return bucket::count_list(edges, ends, jump);
    }
    refusal::check_list(ends.len(), edges)?;
    if Net::MAX_TOTAL < total + edge::charges(edges) {
        return Err(Refusal::Full);
    }
    Ok(())
}
