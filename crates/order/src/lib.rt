// An elimination order: whether it is a permutation of the vertices, and its inverse.
#![tactic(auto)]

ghost use Rattle.std.specs.Prelude.{◌≡◌, false, ◌<◌, ◌≤◌, eqb, length};
ghost use Rattle.refusal.specs.Limits.{max_vertices};
ghost use Rattle.order.specs.Order.{bad_order, inverse_of};
ghost use Rattle.order.specs.VertexSet.{set_words, bit_at, set_bit};

// A set of vertices has a bit for each number, 32 to a word.
const WORDS: usize = 32_768;

// Whether a vertex is in a set.
#[tactic(auto, unfolding(crate::specs::VertexSet::bit_at))]
fn contains(set: &[u32], v: usize) -> bool
    requires { (length set.now ≡ set_words) × (v < max_vertices) }
    ensures { result ≡ eqb (bit_at set.now v) 1 }
{
    (set[v % WORDS] >> (v / WORDS)) % 2 == 1
}

// Puts a vertex into a set. It is not there yet, so its bit is set by a sum.
fn insert_vertex(set: &mut [u32], v: usize)
    requires { (length set.old ≡ set_words) × (v < max_vertices) × (bit_at set.old v ≡ 0) }
    ensures { set.new ≡ set_bit set.old v }
{
    let w = v % WORDS;
    set[w] += 1 << (v / WORDS);
}

// Refusal 3: an entry of the order is no vertex, or stands twice. Nothing lent may be written before this is known, so the entries
// are kept in a set of our own. The order is read from its end: the set holds what stands after the entry at hand.
pub fn bad_order(order: &[u32]) -> bool
    requires { length order.now ≤ max_vertices }
    ensures { result ≡ bad_order order.now }
{
    let n = order.len();
    let mut later = [0u32; WORDS];
    for &vertex in order.iter().rev() {
        let v = vertex as usize;
        if n <= v {
            return true;
        }
        if contains(&later, v) {
            return true;
        }
        insert_vertex(&mut later, v);
    }
    false
}

// Writes the rank of each vertex, by its number.
pub fn invert(order: &[u32], inverse: &mut [u32])
    requires { (length order.now ≤ max_vertices) × (bad_order order.now ≡ false) × (length inverse.old ≡ length order.now) }
    ensures { inverse.new ≡ inverse_of order.now }
{
    for (rank, &vertex) in order.iter().enumerate() {
        inverse[vertex as usize] = rank as u32;
    }
}
