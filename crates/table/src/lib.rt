// Tables whose places are given as numbers, and whole tables: found to hold one number alone, copied, or added up.
#![tactic(auto)]

ghost use Rattle.std.specs.Prelude.{◌≡◌, true, ℕ, ◌+◌, ◌^◌, ◌<◌, length, get_or, set, replicate};
ghost use mathlib.Core.List.{zip_with};

// The entry of a table at a place that is given as a number.
pub fn read_at(table: &[u32], i: u32) -> u32
    requires { i < length table.now }
    ensures { result ≡ get_or table.now i 0 }
{
    let k = i as usize;
    table[k]
}

// Stores v there.
pub fn write_at(table: &mut [u32], i: u32, v: u32)
    requires { i < length table.old }
    ensures { table.new ≡ set table.old i v }
{
    let k = i as usize;
    table[k] = v;
}

// Adds v there.
pub fn add_at(table: &mut [u32], i: u32, v: u32)
    requires i_in_bounds { i < length table.old }
    requires v_bound { get_or table.old i 0 + v < 2 ^ 32 }
    ensures { table.new ≡ set table.old i (get_or table.old i 0 + v) }
{
    let k = i as usize;
    table[k] = table[k] + v;
}

// Whether every entry of a table is x: a scan to the end, which is quicker than one that stops.
pub fn is_all(table: &[u32], x: u32) -> bool
    ensures { result ≡ true → table.now ≡ replicate (length table.now) x }
{
    let mut all = true;
    for &y in table {
        all &= y == x;
    }
    all
}

// Adds each entry of a second table to a first.
pub fn add_all(table: &mut [u32], other: &[u32])
    requires { (length table.old ≡ length other.now) × ((v : ℕ) → get_or table.old v 0 + get_or other.now v 0 < 2 ^ 32) }
    ensures { table.new ≡ zip_with ◌+◌ table.old other.now }
{
    for i in 0..other.len() {
        table[i] += other[i];
    }
}

// Copies a table, entry by entry: `copy_from_slice` would have the library for C ask its host for `memmove`.
pub fn copy(from: &[u32], to: &mut [u32])
    requires { length to.old ≡ length from.now }
    ensures { to.new ≡ from.now }
{
    for i in 0..to.len() {
        to[i] = from[i];
    }
}
