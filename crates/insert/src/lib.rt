// A list of edges taken into a net: put in edge by edge, by exchanges, or grown with the whole forest.
#![tactic(auto)]

mod extending;
mod growing;
mod inserting;
mod putting;

pub use extending::extend;
pub use inserting::is_long;
