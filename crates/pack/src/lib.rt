// Groups packed into blocks: by rising top, each into the lightest block so far, which a tournament of the blocks finds.
#![tactic(auto)]

mod tournament;

ghost use Rattle.std.specs.Prelude.{◌≡◌, ℕ, ◌<◌, length, get_or, replicate};
ghost use Rattle.pack.specs.PackingSteps.{Packable, Packed, Topped, Assigned};

use tournament::{NODES, replay, start};

// Packs the groups by rising top, each into the block with the least load so far, and notes the block of each top.
fn pack(top: &[u32], carried: &[u32], block: &mut [u32], loads: &mut [u32])
    requires packable { Packable top.now carried.now block.old loads.old }
    requires loads_value { loads.old ≡ replicate (length loads.old) 0 }
    ensures { Packed top.now carried.now block.new loads.new }
{
    let mut nodes: [u64; NODES] = [0; NODES];
    start(loads.len(), &mut nodes);
    let mut best = 0;
    for (x, &above) in top.iter().enumerate() {
        if above as usize == x {
            block[x] = best as u32;
            loads[best] += carried[x];
            best = replay(loads, best, &mut nodes);
        }
    }
}

// Gives each vertex the block of its top.
fn spread(top: &[u32], block: &mut [u32])
    requires topped { Topped top.now }
    requires block_len { length block.old ≡ length top.now }
    ensures { (x : ℕ) → x < length top.now → get_or block.new x 0 ≡ get_or block.old (get_or top.now x 0) 0 }
{
    for (x, &above) in top.iter().enumerate() {
        block[x] = block[above as usize];
    }
}

// Packs the groups into blocks: the block of each vertex, and the load of each block.
pub fn assign(top: &[u32], carried: &[u32], block: &mut [u32], loads: &mut [u32])
    requires topped { Topped top.now }
    requires packable { Packable top.now carried.now block.old loads.old }
    ensures { Assigned top.now carried.now block.new loads.new }
{
    loads.fill(0);
    pack(top, carried, block, loads);
    spread(top, block);
}
