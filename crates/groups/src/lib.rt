// Cuts a forest into groups of bounded weight. The cutting rests only on the parent and the weight of each vertex.
#![tactic(auto)]

mod classes;
mod cutting;
mod grouping;

pub use grouping::group;
