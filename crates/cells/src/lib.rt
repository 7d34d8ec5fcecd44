// A call's answer as C takes it: the number, 0 if it was accepted, is answered, and the values go to cells, which a refusal leaves as they
// were.
#![tactic(auto)]

mod numbered;
mod placed;

ghost use Rattle.std.specs.Prelude.{◌≡◌};
ghost use Rattle.refusal.specs.Verdict.{number};
ghost use Rattle.moved.specs.Moved.{moved_rank};
ghost use Rattle.query.specs.Query.{place_of};
ghost use Rattle.cells.specs.Returned.{told, cells, cells_of, separator_cells, separator_cells_of};
ghost use Rattle.cells.specs.Taken.{verdict_by};

use ancestry::Separator;
use cost::Totals;
pub use numbered::Numbered;
pub use placed::Placed;

// Hands over an answer without values.
pub fn number<E: Numbered>(answer: Result<(), E>) -> u32
    ensures { result ≡ number (verdict_by E.numbered answer) }
{
    match answer {
        Ok(()) => 0,
        Err(refusal) => refusal.as_number(),
    }
}

// Hands over where a forest moved, as a rank.
pub fn hand_rank<E: Numbered>(answer: Result<Option<u32>, E>, moved: &mut u32) -> u32
    ensures { (result ≡ number (verdict_by E.numbered answer)) × (moved.new ≡ told moved_rank (verdict_by E.numbered answer) moved.old) }
{
    *moved = match answer {
        Ok(its) => moved::moved_rank(its),
        Err(refusal) => return refusal.as_number(),
    };
    0
}

// Hands over what a report answers: the number of blocks that its share knows is the caller's own.
pub fn hand_totals<E: Numbered>(
    answer: Result<Totals, E>,
    bound: &mut u64,
    volume: &mut u64,
    quotient: &mut u32,
    remainder: &mut u32,
) -> u32
    ensures { (result ≡ number (verdict_by E.numbered answer))
        × (cells bound.new volume.new quotient.new remainder.new
        ≡ told cells_of (verdict_by E.numbered answer) (cells bound.old volume.old quotient.old remainder.old)) }
{
    match answer {
        Ok(totals) => {
            let share = totals.share;
            *bound = totals.bound;
            *volume = totals.volume;
            *quotient = share.quotient();
            *remainder = share.remainder();
            0
        }
        Err(refusal) => refusal.as_number(),
    }
}

// Hands over the place of a run in an index. A refused query's is an empty part at the front.
pub fn hand_place<P: Placed>(answer: P, first: &mut u64, count: &mut u64) -> u32
    ensures { place_of result first.new count.new ≡ P.placed answer }
{
    let (number, at, long) = answer.parts();
    *first = u64::from(at);
    *count = u64::from(long);
    number
}

// Hands over what lies between two vertices: how many vertices that is, and the lowest, as a rank.
pub fn hand_separator<E: Numbered>(
    answer: Result<Separator, E>,
    count: &mut u32,
    lowest: &mut u32,
) -> u32
    ensures { (result ≡ number (verdict_by E.numbered answer))
        × (separator_cells count.new lowest.new ≡ told separator_cells_of (verdict_by E.numbered answer) (separator_cells count.old lowest.old)) }
{
    match answer {
        Ok(its) => {
            *count = its.count;
            *lowest = ancestry::lowest_rank(its.lowest);
            0
        }
        Err(refusal) => refusal.as_number(),
    }
}
