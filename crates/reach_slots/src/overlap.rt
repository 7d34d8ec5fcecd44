// Where the paths of the edges end, counted over the slots in order.
ghost use Rattle.std.specs.Prelude.{◌≡◌, List, ℕ, ◌+◌, ◌<◌, length};
ghost use Rattle.game.specs.Edge.{Edge};
ghost use Rattle.game.specs.Net.{reach as reach_of};
ghost use Rattle.reach_slots.specs.Balance.{Balanced};
ghost use Rattle.reach_slots.specs.Jumps.{Jumps, Under, Found};
ghost use Rattle.reach_slots.specs.Visit.{Slotted, Empty};

use net::Net;
use table::{add_at, read_at, write_at};

// Where the path of an edge in slot k ends, if v is the lower end of the latest edge before with the same upper end y: at the
// lowest vertex at or above v whose stretch goes on behind k, or at y where v is absent. Pointers that are followed are halved.
fn path_end(k: u32, v: u32, y: u32, ends: &[u32], ancestor: &mut [u32]) -> u32
    requires { (p : List ℕ) × Jumps p ends.now ancestor.old k × Under p ends.now k v y }
    ensures { (p : List ℕ) → Jumps p ends.now ancestor.old k → Under p ends.now k v y
        → Jumps p ends.now ancestor.new k × Found p ends.now k v y result }
{
    if v == Net::ABSENT {
        return y;
    }
    let mut r = v;
    while read_at(ends, r) <= k {
        let q = read_at(ancestor, r);
        if k < read_at(ends, q) {
            return q;
        }
        let next = read_at(ancestor, q);
        let i = r as usize;
        ancestor[i] = next;
        r = next;
    }
    r
}

// Goes over the slots, and counts at each vertex the edges whose paths end there. The slots of the lower end u stop at `stop`.
fn visit(
    counts: &[u32],
    ends: &[u32],
    first: &[u32],
    slots: &[u32],
    overlaps: &mut [u32],
    ancestor: &mut [u32],
    previous: &mut [u32],
)
    requires { (p : List ℕ) × (es : List Edge) × (filed stops : List ℕ)
        × Slotted p counts.now es filed stops ends.now first.now slots.now
        × Empty p ends.now ancestor.old previous.old overlaps.old }
    ensures { (p : List ℕ) (es : List Edge) (filed stops : List ℕ)
        → Slotted p counts.now es filed stops ends.now first.now slots.now
        → Empty p ends.now ancestor.old previous.old overlaps.old
        → Balanced p counts.now overlaps.new (reach_of p es) }
{
    let mut u: u32 = 0;
    let mut stop: u32 = 0;
    for (k, &entry) in slots.iter().enumerate() {
        let k = k as u32;
        let mut y = entry;
        if k == stop {
            u = y;
            stop = k + read_at(counts, u);
            y = read_at(first, u);
        }
        let v = read_at(previous, y);
        let r = path_end(k, v, y, ends, ancestor);
        add_at(overlaps, r, 1);
        write_at(previous, y, u);
    }
}

// The same from work tables that hold anything: at first every pointer is the parent, and no edge has been met.
pub fn count_overlaps(
    parents: &[u32],
    counts: &[u32],
    ends: &[u32],
    first: &[u32],
    slots: &[u32],
    overlaps: &mut [u32],
    ancestor: &mut [u32],
    previous: &mut [u32],
)
    requires overlaps_len { (length overlaps.old ≡ length parents.now) × (length ancestor.old ≡ length parents.now)
        × (length previous.old ≡ length parents.now) }
    requires by_index { (es : List Edge) × (filed stops : List ℕ)
        × Slotted parents.now counts.now es filed stops ends.now first.now slots.now }
    ensures { (es : List Edge) (filed stops : List ℕ)
        → Slotted parents.now counts.now es filed stops ends.now first.now slots.now
        → Balanced parents.now counts.now overlaps.new (reach_of parents.now es) }
{
    table::copy(parents, ancestor);
    previous.fill(Net::ABSENT);
    overlaps.fill(0);
    visit(counts, ends, first, slots, overlaps, ancestor, previous);
}
