// Forests grown by union-find over edges that are filed. The caller lends the room.
#![tactic(auto)]

mod climbing;
mod raising;
mod work;

pub use climbing::climb;
pub use raising::{clear, grow, grow_kept};
pub use work::bad_work;
