// The two figures that a report answers, summed from its tables. Each sums up to 1,000,000 numbers of 32 bits, so they take 64.
ghost use Rattle.std.specs.Prelude.{◌≡◌, ◌-◌, ◌≤◌, length};
ghost use Rattle.refusal.specs.Limits.{max_vertices};
ghost use Rattle.cost.specs.SummingSteps.{cut_reach, bound_by, volume_by};

use net::Net;

// What vertex x adds to the bound: its reach, if it is cut.
fn cut_reach(x: usize, parent: u32, top: u32, reach: u32) -> u64
    ensures { result ≡ cut_reach x parent top reach }
{
    if top as usize != x {
        return 0;
    }
    if parent == Net::ABSENT {
        return 0;
    }
    u64::from(reach)
}

// The bound: the sum of the reaches of the cut vertices.
pub fn bound(parents: &[u32], top: &[u32], reach: &[u32]) -> u64
    requires { (length parents.now ≤ max_vertices) × (length top.now ≡ length parents.now) × (length reach.now ≡ length parents.now) }
    ensures { result ≡ bound_by parents.now top.now reach.now }
{
    let mut sum: u64 = 0;
    for (x, &parent) in parents.iter().enumerate() {
        sum += cut_reach(x, parent, top[x], reach[x]);
    }
    sum
}

// What a vertex adds to the volume: one less than its block count, if it has an edge.
fn shared(count: u32) -> u64
    ensures { result ≡ count - 1 }
{
    u64::from(count.saturating_sub(1))
}

// The volume: the sum of the block counts, less one each.
pub fn volume(block_count: &[u32]) -> u64
    requires { length block_count.now ≤ max_vertices }
    ensures { result ≡ volume_by block_count.now }
{
    let mut sum: u64 = 0;
    for &count in block_count {
        sum += shared(count);
    }
    sum
}
