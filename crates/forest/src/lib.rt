// Nets that grow: start a net, add edges to it, join a second one into it. Each call refuses what document 01 names, by its number,
// with every table as it was; every other input is accepted. The calls are crates of their own; their laws, and what they promise of
// the nets that they leave, stand here.
#![tactic(auto)]

pub use add::add;
pub use join::join;
pub use start::start;
