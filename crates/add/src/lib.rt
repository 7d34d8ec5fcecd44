// The call add. The tables are read first, then the list for its faults; a long list is counted by upper end and its rows are charged in
// the same sweep, unless it is the first and its upper ends rise.
#![tactic(auto)]

ghost use Rattle.std.specs.Prelude.{◌≡◌, true};
ghost use Rattle.game.specs.Net.{net};
ghost use Rattle.growth.specs.Work.{with_work, work_of};
ghost use Rattle.refusal.specs.Numbers.{verdict};
ghost use Rattle.refusal.specs.Outcome.{ended};
ghost use Rattle.add.specs.Add.{add_outcome};
ghost use Rattle.add.specs.Steps.{RisingFirst};

use net::Net;
use refusal::Refusal;

// Whether the list is to be counted, but is the first and can be grown as it stands.
fn is_rising_first(parents: &[u32], edges: &[u32], counted: bool) -> bool
    ensures { result ≡ true → (counted ≡ true) × RisingFirst parents.now edges.now }
{
    counted && rising::is_rising(parents.len(), edges) && table::is_all(parents, Net::ABSENT)
}

// Adds a list of ties to a net, as a whole or not at all: the parents become those of the elimination game on the old links and the new
// edges, and each tie raises the weight of its lower end by its rows. The work tables take n, n and n + m entries for n vertices and m
// ties; they end as zeros. Answers where the forest moved.
pub fn add(
    parents: &mut [u32],
    weights: &mut [u32],
    edges: &[u32],
    ends: &mut [u32],
    jump: &mut [u32],
    lower: &mut [u32],
) -> Result<Option<u32>, Refusal>
    ensures { ended (verdict result) (with_work (net parents.new weights.new) (work_of ends.new jump.new lower.new))
        ≡ add_outcome (with_work (net parents.old weights.old) (work_of ends.old jump.old lower.old)) edges.now }
{
    let total = add_refusal::read_tables(parents, weights, edges, ends, jump, lower)?;
    let m = edge::count(edges);
    let counted = insert::is_long(parents.len(), m) & add_refusal::is_light(total, m);
    if is_rising_first(parents, edges, counted) {
        let lowest = rising::grow_list(parents, weights, edges, ends, jump, lower);
        return Ok(moved::moved_at(lowest));
    }
    add_refusal::read_list(edges, ends, jump, total, counted)?;
    let lowest = insert::extend(parents, weights, edges, ends, jump, lower, counted);
    Ok(moved::moved_at(lowest))
}
