// The limits of rows and of a division, and what goes beyond them.
ghost use Rattle.std.specs.Prelude.{◌≡◌, ◌<◌};
ghost use Rattle.refusal.specs.Limits.{max_rows, outside};
ghost use Rattle.refusal.specs.DivisionLimits.{bad_limits, too_heavy};

// The largest limit on the weight of a group.
pub const MAX_LIMIT: u32 = 96_000_000;

// The largest number of blocks.
pub const MAX_BLOCKS: u32 = 1_000;

// The most rows of a tie.
pub const MAX_ROWS: u32 = 6;

// Whether x is not 1 to most. There is no branch in it, so that a scan takes several numbers at once.
fn is_outside(most: u32, x: u32) -> bool
    ensures { result ≡ outside most x }
{
    (x < 1) | (most < x)
}

// Refusal 32: rows that are not 1 to 6.
pub fn bad_rows(rows: u32) -> bool
    ensures { result ≡ outside max_rows rows }
{
    is_outside(MAX_ROWS, rows)
}

// Refusal 8: a limit or a block count out of range.
pub fn bad_limits(limit: u32, blocks: u32) -> bool
    ensures { result ≡ bad_limits limit blocks }
{
    if is_outside(MAX_LIMIT, limit) {
        return true;
    }
    is_outside(MAX_BLOCKS, blocks)
}

// Refusal 22: a vertex that is too heavy for any group.
pub fn too_heavy(limit: u32, weights: &[u32]) -> bool
    ensures { result ≡ too_heavy limit weights.now }
{
    weights.iter().any(|&weight| limit < weight)
}
