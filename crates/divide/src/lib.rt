// The call divide: a forest cut into groups of bounded weight, and the groups packed into blocks. The cutting rests only on the parent
// and the weight of each vertex.
#![tactic(auto)]

ghost use Rattle.std.specs.Prelude.{◌≡◌, length};
ghost use Rattle.refusal.specs.Numbers.{code, verdict};
ghost use Rattle.refusal.specs.Outcome.{ended};
ghost use Rattle.game.specs.Net.{net};
ghost use Rattle.divide.specs.Divide.{divided, divide_refusal, divide_outcome};
ghost use Rattle.divide.specs.Tables.{held, SameTables};
ghost use Rattle.divide.specs.Steps.{Fitting};
ghost use Rattle.cut.specs.Steps.{Divisible};

pub mod tables;

use groups::group;
use net::Net;
use pack::assign;
use refusal::{Refusal, bad_limits, too_heavy};
use tables::Division;
pub use tables::wrong_tables;

// Divides a net that nothing speaks against: carried weight, top and block of each vertex, and the load of each block.
pub fn cut_and_pack(parents: &[u32], weights: &[u32], limit: u32, division: &mut Division<'_>)
    requires divisible { Divisible parents.now weights.now limit }
    requires fitting { Fitting (length parents.now) (held division.old) }
    ensures outcome { held division.new ≡ divided (net parents.now weights.now) limit (length division.old.loads.now) }
    ensures same { SameTables division.old division.new }
{
    let carried = &mut *division.carried;
    let top = &mut *division.top;
    group(parents, weights, limit, carried, top, division.block);
    assign(top, carried, division.block, division.loads);
}

// Whether dividing is refused, and for what. The tables that would be written are only looked at for their lengths.
fn divide_refusal(
    parents: &[u32],
    weights: &[u32],
    limit: u32,
    blocks: u32,
    division: &Division<'_>,
) -> Result<(), Refusal>
    ensures { code result ≡ divide_refusal (net parents.now weights.now) limit blocks (held division.now) }
{
    let n = parents.len();
    if refusal::bad_count(n) {
        return Err(Refusal::BadCount);
    }
    if (weights.len() != n) | division.is_wrong(n, blocks as usize) {
        return Err(Refusal::WrongLength);
    }
    if bad_limits(limit, blocks) {
        return Err(Refusal::BadLimit);
    }
    if Net::of(weights).is_damaged(parents) {
        return Err(Refusal::Damaged);
    }
    if too_heavy(limit, weights) {
        return Err(Refusal::TooHeavy);
    }
    Ok(())
}

// Document 01's Divide, with a limit and a number of blocks: cuts the forest into groups of weight at most the limit, and packs the
// groups into blocks. It writes the carried weight, the top and the block of each vertex, and the load of each block. A refused call
// leaves every table as it was.
pub fn divide(
    parents: &[u32],
    weights: &[u32],
    limit: u32,
    blocks: u32,
    division: &mut Division<'_>,
) -> Result<(), Refusal>
    ensures outcome { ended (verdict result) (held division.new)
        ≡ divide_outcome (net parents.now weights.now) limit blocks (held division.old) }
    ensures same { SameTables division.old division.new }
{
    divide_refusal(parents, weights, limit, blocks, division)?;
    cut_and_pack(parents, weights, limit, division);
    Ok(())
}
