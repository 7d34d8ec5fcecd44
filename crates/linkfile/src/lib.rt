// Link files: a net's tables saved as bytes, and read back. The calls are crates of their own; their laws together, the round trips
// among them, stand here.
#![tactic(auto)]

pub use read::read;
pub use save::save;
