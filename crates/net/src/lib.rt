// A net, that is an elimination forest with a weight on each vertex: its type, its constants, and what damages it.
// A net's tables are lent as two slices, parents and weights; its vertex count is the length of its parents.
#![tactic(auto)]

ghost use Rattle.std.specs.Prelude.{◌≡◌, ◌^◌, ◌≤◌, ◌<◌, length};
ghost use Rattle.game.specs.Game.{absent};
ghost use Rattle.game.specs.Table.{sum};
ghost use Rattle.game.specs.Tree.{sound, sound_parent};
ghost use Rattle.refusal.specs.Limits.{max_vertices, max_total};
ghost use Rattle.net.specs.Damage.{damaged_by};

// What a call knows of a net whose tables it has read: its total weight.
#[derive(Clone, Copy)]
pub struct Net {
    pub total: u64,
}

impl Net {
    // The parent of a vertex that has none.
    pub const ABSENT: u32 = 0xFFFF_FFFF;

    // The largest total weight.
    pub const MAX_TOTAL: u64 = 96_000_000;

    pub fn new(total: u64) -> Net
        ensures { result.total ≡ total }
    {
        Net { total }
    }

    // What the tables of a net say of it.
    pub fn of(weights: &[u32]) -> Net
        requires { length weights.now ≤ max_vertices }
        ensures { result.total ≡ sum weights.now }
    {
        Net::new(total(weights))
    }

    // Refusal 30, of the net whose summary this is.
    pub fn is_damaged(self, parents: &[u32]) -> bool
        requires { length parents.now ≤ max_vertices }
        ensures { result ≡ damaged_by parents.now self.total }
    {
        if is_sound(parents) {
            Net::MAX_TOTAL < self.total
        } else {
            true
        }
    }
}

// Whether p may be the parent of the vertex at rank i among n: it is absent or stands above i, within the table. There is no branch
// in it, so that a scan takes several vertices at once.
fn is_parent(n: u32, i: u32, p: u32) -> bool
    ensures { result ≡ sound_parent n i p }
{
    (p == Net::ABSENT) | ((i < p) & (p < n))
}

// Whether each parent is absent or stands above its vertex, within the table: a scan to the end, which is quicker than one that stops.
pub fn is_sound(parents: &[u32]) -> bool
    requires { length parents.now ≤ max_vertices }
    ensures { result ≡ sound parents.now }
{
    let n = parents.len() as u32;
    let mut sound = true;
    for (i, &p) in parents.iter().enumerate() {
        sound &= is_parent(n, i as u32, p);
    }
    sound
}

// The sum of a table of weights.
pub fn total(weights: &[u32]) -> u64
    requires { length weights.now ≤ max_vertices }
    ensures { result ≡ sum weights.now }
{
    let mut sum: u64 = 0;
    for &weight in weights {
        sum += u64::from(weight);
    }
    sum
}
