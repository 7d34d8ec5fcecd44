// The text of a run, from a report's answer and its tables, or from a refusal.
#![tactic(auto)]

mod fields;
mod lines;

pub use fields::LINE;
pub use lines::{put_answer, put_refused};

// The room of the share, and of the last line, which the share ends: three words, two numbers of 64 bits and two of 32. A refusal is
// shorter than that.
const SHARE: usize = 6 + 2 * fields::ENTRY;

pub const TOTALS: usize = 13 + 2 * fields::FIGURE + SHARE;
