// The tables that dividing writes, which the caller lends, and what lengths they need.
ghost use Rattle.std.specs.Prelude.{◌≡◌, ◌||◌, length};
ghost use Rattle.refusal.specs.Refusal.{wrong_length};

// A division: of each vertex the weight that it carries, the top of its group and its block; and the load of each block.
#[derive(Drop)]
pub struct Division<'a> {
    pub carried: &'a mut [u32],
    pub top: &'a mut [u32],
    pub block: &'a mut [u32],
    pub loads: &'a mut [u32],
}

// Whether one of these lengths is another than n vertices and k blocks ask: one entry for each of them.
fn wrong_division(
    n: usize,
    k: usize,
    carried: usize,
    top: usize,
    block: usize,
    loads: usize,
) -> bool
    ensures { result ≡ (wrong_length carried n || wrong_length top n || wrong_length block n || wrong_length loads k) }
{
    (carried != n) | (top != n) | (block != n) | (loads != k)
}

// Refusal 2, by the tables' lengths: the loads are a table of the k blocks that are given, the others of n vertices.
pub fn wrong_tables(
    n: usize,
    k: usize,
    weights: usize,
    carried: usize,
    top: usize,
    block: usize,
    block_loads: usize,
) -> bool
    ensures { result ≡ (wrong_length weights n || wrong_length carried n || wrong_length top n || wrong_length block n || wrong_length block_loads k) }
{
    (weights != n) | wrong_division(n, k, carried, top, block, block_loads)
}

impl Division<'_> {
    // Whether a table has another length than n vertices and k blocks ask: one entry for each of them. It is refusal 2.
    pub fn is_wrong(&self, n: usize, k: usize) -> bool
        ensures { result
            ≡ (wrong_length (length self.now.carried.now) n || wrong_length (length self.now.top.now) n
            || wrong_length (length self.now.block.now) n || wrong_length (length self.now.loads.now) k) }
    {
        wrong_division(
            n,
            k,
            self.carried.len(),
            self.top.len(),
            self.block.len(),
            self.loads.len(),
        )
    }
}
