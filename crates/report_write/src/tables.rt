// The tables that a report writes beside those of its division, which the caller lends.
// The figures of a report: the block of each edge; and of each vertex the reach, the block count and how many of its edges that took.
#[derive(Drop)]
pub struct Figures<'a> {
    pub edge_blocks: &'a mut [u32],
    pub reach: &'a mut [u32],
    pub block_count: &'a mut [u32],
    pub edges_taken: &'a mut [u32],
}
