// The even share of a total among blocks: as much to each as whole numbers allow, and what is left over.
#![tactic(auto)]

ghost use Rattle.std.specs.Prelude.{◌≡◌, ◌≤◌, ◌<◌, length};
ghost use Rattle.game.specs.Table.{sum};
ghost use Rattle.refusal.specs.Limits.{max_vertices, max_total};
ghost use Rattle.share.specs.Share.{even_share, check_sum};

// What each block gets, and what is left over; with the number of blocks, so that it can be summed up again.
#[derive(Clone, Copy)]
pub struct Share {
    quotient: u32,
    remainder: u32,
    blocks: u32,
}

impl Share {
    pub fn of(total: u32, blocks: u32) -> Share
        requires { 0 < blocks }
        ensures { result ≡ even_share total blocks }
    {
        Share {
            quotient: total / blocks,
            remainder: total % blocks,
            blocks,
        }
    }

    pub fn quotient(self) -> u32
        ensures { result ≡ self.quotient }
    {
        self.quotient
    }

    pub fn remainder(self) -> u32
        ensures { result ≡ self.remainder }
    {
        self.remainder
    }

    // What the blocks get together, and what is left over: the total. In 64 bits it fits whatever the share holds.
    pub fn check_sum(self) -> u64
        ensures { result ≡ check_sum self }
    {
        u64::from(self.quotient) * u64::from(self.blocks) + u64::from(self.remainder)
    }
}

// The even share of what the blocks carry together. There are far fewer blocks than vertices, so their loads are summed.
pub fn even_share(block_loads: &[u32]) -> Share
    requires { (0 < length block_loads.now) × (length block_loads.now ≤ max_vertices) × (sum block_loads.now ≤ max_total) }
    ensures { result ≡ even_share (sum block_loads.now) (length block_loads.now) }
{
    let total = net::total(block_loads);
    Share::of(total as u32, block_loads.len() as u32)
}
