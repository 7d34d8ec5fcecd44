// What two vertices of a forest have in common: the vertices above both, walked to by parents alone. A walk costs the two paths to their
// roots, and no table of the whole forest.
#![tactic(auto)]

ghost use Rattle.std.specs.Prelude.{◌≡◌, ◌≢◌, ◌<◌, length};
ghost use Rattle.game.specs.Game.{absent};
ghost use Rattle.refusal.specs.Numbers.{verdict};
ghost use Rattle.refusal.specs.Outcome.{ended};
ghost use Rattle.ancestry.specs.Common.{at_front};
ghost use Rattle.ancestry.specs.Answer.{separator, lowest_rank};
ghost use Rattle.ancestry.specs.Steps.{Walkable, path, FirstCommon, lowest_at, list_outcome};

use net::Net;
use refusal::Refusal;

// What is answered of the vertices above both: how many they are, and the lowest, if there is one.
#[derive(Clone, Copy, Debug, PartialEq, Eq)]
pub struct Separator {
    pub count: u32,
    pub lowest: Option<u32>,
}

// The lowest vertex that both climb to, themselves included; absent, if there is none. The lower of the two goes up, so neither passes
// where they meet; past its root a path is at absent, which is above every vertex. There is no branch in a step, because nobody can foresee
// which of two paths is the lower.
fn lowest_common(parents: &[u32], one: u32, other: u32) -> u32
    requires { Walkable parents.now × (one < length parents.now) × (other < length parents.now) }
    ensures { FirstCommon parents.now one other result }
{
    let mut a = one;
    let mut b = other;
    while a != b {
        let low = a.min(b);
        b = a.max(b);
        a = parents[low as usize];
    }
    a
}

// Writes a vertex and its ancestors to the front of a table, lowest first, and answers how many these are; of absent, none.
fn write_path(parents: &[u32], from: u32, table: &mut [u32]) -> u32
    requires { Walkable parents.now × (length table.old ≡ length parents.now) × (from ≢ absent → from < length parents.now) }
    ensures { (table.new ≡ at_front (path parents.now from) table.old) × (result ≡ length (path parents.now from)) }
{
    let mut x = from;
    let mut count: u32 = 0;
    while x != Net::ABSENT {
        table[count as usize] = x;
        count += 1;
        x = parents[x as usize];
    }
    count
}

// The answer by how many there are, and the lowest, absent for none.
#[tactic(auto, unfolding(crate::specs::Steps::lowest_at))]
fn found(count: u32, lowest: u32) -> Separator
    ensures { result ≡ separator count (lowest_at lowest) }
{
    Separator {
        count,
        lowest: (lowest != Net::ABSENT).then_some(lowest),
    }
}

// Lists the vertices above both at the front of a table, lowest first. Refused with 31, where the two are equal or one is above the other,
// it leaves the table as it was.
pub fn list_common(
    parents: &[u32],
    one: u32,
    other: u32,
    table: &mut [u32],
) -> Result<Separator, Refusal>
    requires { Walkable parents.now × (one < length parents.now) × (other < length parents.now) × (length table.old ≡ length parents.now) }
    ensures { ended (verdict result) table.new ≡ list_outcome parents.now one other table.old }
{
    let meet = lowest_common(parents, one, other);
    if (meet == one) | (meet == other) {
        return Err(Refusal::Related);
    }
    let count = write_path(parents, meet, table);
    Ok(found(count, meet))
}

// The lowest as one number: absent for none.
#[tactic(auto, unfolding(crate::specs::Answer::lowest_rank))]
pub fn lowest_rank(lowest: Option<u32>) -> u32
    ensures { result ≡ lowest_rank lowest }
{
    lowest.unwrap_or(Net::ABSENT)
}
