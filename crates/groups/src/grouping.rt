// Groups: what remains connected, and its top.
ghost use Rattle.std.specs.Prelude.{◌≡◌, length};
ghost use Rattle.cut.specs.Steps.{Divisible, Hanging, Tops, Cuts, Grouped};

use crate::cutting::cut;
use net::Net;

// Each vertex takes the top of what it hangs on, going down the ranks.
fn find_tops(link: &mut [u32])
    requires { Hanging link.old }
    ensures { Tops link.old link.new }
{
    for x in (0..link.len()).rev() {
        let above = link[x] as usize;
        link[x] = link[above];
    }
}

// Cuts the forest into groups: what each vertex carries, and the top of its group. The table next is for work.
pub fn group(
    parents: &[u32],
    weights: &[u32],
    limit: u32,
    carried: &mut [u32],
    top: &mut [u32],
    next: &mut [u32],
)
    requires divisible { Divisible parents.now weights.now limit }
    requires carried_len { (length carried.old ≡ length parents.now) × (length top.old ≡ length parents.now) × (length next.old ≡ length parents.now) }
    ensures { Grouped parents.now weights.now limit carried.new top.new }
{
    top.fill(Net::ABSENT);
    carried.fill(0);
    cut(parents, weights, limit, carried, top, next);
    find_tops(top);
}
