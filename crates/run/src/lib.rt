// One run of the program `blocks`, from the bytes of its three files to the text that it prints: the files are checked for what they are
// refused for, and the text is written.
#![tactic(auto)]

ghost use Rattle.std.specs.Prelude.{◌≡◌, ◌≤◌, length, take, drop};
ghost use Rattle.files.specs.Files.{files as files_of};
ghost use Rattle.run.specs.Text.{run_text};

use files::{EDGE_NUMBERS, VERTICES};

// The room of the text: a line to each vertex, and the last one.
pub const TEXT: usize = lines::LINE * files::VERTICES + lines::TOTALS;

// A run of `blocks` on the bytes of its files `marks.ord`, `ties.rec` and `want.rec`: it writes what the program prints from the front
// of `text` on, leaves the rest of it as it was, and says how long that is.
pub fn run(marks: &[u8], ties: &[u8], want: &[u8], text: &mut [u8; TEXT]) -> usize
    ensures text_after { take result text.new ≡ run_text (files_of marks.now ties.now want.now) }
    ensures text_unchanged { drop result text.new ≡ drop result text.old }
    ensures upper_bound { (result ≤ length text.new) × (result ≡ length (take result text.new)) }
{
    let mut order = [0u32; VERTICES];
    let mut edges = [0u32; EDGE_NUMBERS];
    match files::load(marks, ties, want, &mut order, &mut edges) {
        Ok(()) => {
            let n = marks.len() / files::WORD;
            let numbers = ties.len() / files::WORD;
            let limit = words::word_at(want, 0);
            let blocks = words::word_at(want, files::WORD);
            run_report::divide(&order[..n], &edges[..numbers], limit, blocks, text)
        }
        Err(refusal) => lines::put_refused(text, refusal),
    }
}
