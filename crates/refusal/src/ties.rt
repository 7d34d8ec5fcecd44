// The faults of ties and of lists of ties.
ghost use Rattle.std.specs.Prelude.{◌≡◌};
ghost use Rattle.game.specs.Edge.{ties as ties_of};
ghost use Rattle.edge.specs.Tie.{written};
ghost use Rattle.refusal.specs.Refusal.{fault, first_fault, list_refusal};
ghost use Rattle.refusal.specs.Numbers.{code};
ghost use Rattle.refusal.specs.Steps.{is_faulty, some_fault};

use crate::kinds::Refusal;
use crate::limits::bad_rows;
use crate::{MAX_EDGES, MAX_VERTICES};
use edge::Tie;

// Whether a tie is refused, and for what.
pub fn check_tie(n: usize, tie: Tie) -> Result<(), Refusal>
    ensures { code result ≡ fault n (written tie) }
{
    if n <= tie.a as usize {
        return Err(Refusal::BadVertex);
    }
    if n <= tie.b as usize {
        return Err(Refusal::BadVertex);
    }
    if tie.a == tie.b {
        return Err(Refusal::Loop);
    }
    if bad_rows(tie.rows) {
        return Err(Refusal::BadRows);
    }
    Ok(())
}

// Whether a tie has a fault. There is no branch in it, so that a scan takes several ties at once.
fn is_faulty(n: u32, tie: Tie) -> bool
    ensures { result ≡ is_faulty n (written tie) }
{
    (n <= tie.a) | (n <= tie.b) | (tie.a == tie.b) | bad_rows(tie.rows)
}

// Whether some tie of a flat list has a fault: a scan to the end, which is quicker than one that stops.
fn has_fault(n: u32, edges: &[u32]) -> bool
    ensures { result ≡ some_fault n (ties_of edges.now) }
{
    let mut found = false;
    for tie in edge::ties(edges) {
        found |= is_faulty(n, tie);
    }
    found
}

fn find_fault(n: usize, edges: &[u32]) -> Result<(), Refusal>
    ensures { code result ≡ first_fault n (ties_of edges.now) }
{
    for tie in edge::ties(edges) {
        check_tie(n, tie)?;
    }
    Ok(())
}

// What the first faulty tie of a flat list is refused for. Most lists have none, which is found out first.
pub fn check_ties(n: usize, edges: &[u32]) -> Result<(), Refusal>
    ensures { code result ≡ first_fault n (ties_of edges.now) }
{
    if n <= MAX_VERTICES {
        if !has_fault(n as u32, edges) {
            return Ok(());
        }
    }
    find_fault(n, edges)
}

// What a list on n vertices is refused for: its first fault, or its length.
pub fn check_list(n: usize, edges: &[u32]) -> Result<(), Refusal>
    ensures { code result ≡ list_refusal n edges.now }
{
    check_ties(n, edges)?;
    if MAX_EDGES < edge::count(edges) {
        return Err(Refusal::Full);
    }
    Ok(())
}
