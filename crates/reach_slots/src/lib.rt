// The order in which the reaches visit the edges of a net. Each edge has a slot, laid out by the counts of the subtrees, so that the lower
// ends of each subtree come in one stretch (layout, slotting). In that order the latest edge of a vertex tells where the path of the next
// one overlaps what was counted before (overlap).
#![tactic(auto)]

mod layout;
mod overlap;
mod slotting;

pub use layout::lay_out;
pub use overlap::count_overlaps;
pub use slotting::fill_slots;
