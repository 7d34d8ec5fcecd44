// Blocks that get a vertex's stamp as it meets them.
ghost use Rattle.std.specs.Prelude.{◌≡◌, cond, ◌<◌, eqb, length, get_or, set};
ghost use Rattle.block_count.specs.CountingSteps.{own_block, Fresh, Stamped};

// Stamps a block. Answers 1 if it did not have the stamp, else 0.
pub fn meet(block: u32, stamp: u32, stamps: &mut [u32]) -> u32
    requires { block < length stamps.old }
    ensures { (stamps.new ≡ set stamps.old block stamp) × (result ≡ cond (eqb (get_or stamps.old block 0) stamp) 0 1) }
{
    let at = block as usize;
    if stamps[at] == stamp {
        return 0;
    }
    stamps[at] = stamp;
    1
}

// Stamps the block of a vertex that has edges that lead up.
pub fn meet_own(up: u32, block: u32, stamp: u32, stamps: &mut [u32]) -> u32
    requires { (block < length stamps.old) × Fresh stamps.old stamp }
    ensures { Stamped stamps.new stamp (own_block up block) result }
{
    if up == 0 {
        return 0;
    }
    meet(block, stamp, stamps)
}
