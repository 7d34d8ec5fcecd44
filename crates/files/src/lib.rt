// The files of a run: what they are refused for, and the order and the edges that they say.
#![tactic(auto)]

ghost use Rattle.std.specs.Prelude.{◌≡◌, ◌*◌, ◌/◌, ◌≤◌, length};
ghost use Rattle.refusal.specs.Numbers.{code};
ghost use Rattle.words.specs.Word.{words};
ghost use Rattle.files.specs.Files.{files as files_of, vertex_capacity};
ghost use Rattle.files.specs.Steps.{size_refusal, content_refusal, Sized, FilesLoaded, Decided, number_capacity};

use refusal::Refusal;

// The tables of a run hold 1,000 vertices and 4,000 edges.
pub const VERTICES: usize = 1_000;

pub const EDGES: usize = 4_000;

// The numbers of the edges: two ends and the rows of each.
pub const EDGE_NUMBERS: usize = 3 * EDGES;

// The size of a number, and that of a record of `ties.rec` and of `want.rec`.
pub const WORD: usize = 4;

const TIE: usize = 12;

const LIMITS: usize = 8;

// How many bytes of each file a run has to see: those of its front, as the definition `front` has it.
pub const MARKS: usize = WORD * VERTICES + WORD;

pub const TIES: usize = TIE * EDGES + TIE;

pub const WANT: usize = LIMITS + 1;

// What the files' lengths are refused for.
fn size_refusal(marks: &[u8], ties: &[u8], want: &[u8]) -> Result<(), Refusal>
    ensures { code result ≡ size_refusal (files_of marks.now ties.now want.now) }
{
    let n = marks.len() / WORD;
    let m = ties.len() / TIE;
    if n == 0 {
        return Err(Refusal::BadCount);
    }
    if (VERTICES < n) | (EDGES < m) {
        return Err(Refusal::WrongLength);
    }
    if (marks.len() % WORD != 0) | (ties.len() % TIE != 0) | (want.len() != LIMITS) {
        return Err(Refusal::BadFile);
    }
    Ok(())
}

// Takes the words of bytes into a table.
fn take_words(bytes: &[u8], table: &mut [u32])
    requires { length table.old ≡ length bytes.now / 4 }
    ensures { table.new ≡ words bytes.now }
{
    for (i, word) in table.iter_mut().enumerate() {
        *word = words::word_at(bytes, WORD * i);
    }
}

// What the files' content is refused for.
#[tactic(auto, using(crate::proofs::Chain::early_returns), unfolding(crate::specs::Steps::content_refusal))]
fn content_refusal(order: &[u32], edges: &[u32], limit: u32, blocks: u32) -> Result<(), Refusal>
    requires { length order.now ≤ vertex_capacity }
    ensures { code result ≡ content_refusal order.now edges.now limit blocks }
{
    if order::bad_order(order) {
        return Err(Refusal::BadOrder);
    }
    if refusal::bad_limits(limit, blocks) {
        return Err(Refusal::BadLimit);
    }
    refusal::check_ties(order.len(), edges)
}

// Takes the order and the edges into tables of their lengths, and says what they are refused for.
fn take_files(
    marks: &[u8],
    ties: &[u8],
    want: &[u8],
    order: &mut [u32],
    edges: &mut [u32],
) -> Result<(), Refusal>
    requires { Sized (files_of marks.now ties.now want.now) order.old edges.old }
    ensures { Decided (files_of marks.now ties.now want.now) order.new edges.new (code result) }
{
    take_words(marks, order);
    take_words(ties, edges);
    content_refusal(
        order,
        edges,
        words::word_at(want, 0),
        words::word_at(want, WORD),
    )
}

// What a run is refused for before its net is made. If it is not, then the tables, lent at their full length, begin with the order and the
// edges.
pub fn load(
    marks: &[u8],
    ties: &[u8],
    want: &[u8],
    order: &mut [u32],
    edges: &mut [u32],
) -> Result<(), Refusal>
    requires { (length order.old ≡ vertex_capacity) × (length edges.old ≡ number_capacity) }
    ensures { FilesLoaded (files_of marks.now ties.now want.now) order.new edges.new (code result) }
{
    size_refusal(marks, ties, want)?;
    let n = marks.len() / WORD;
    let numbers = ties.len() / WORD;
    take_files(marks, ties, want, &mut order[..n], &mut edges[..numbers])
}
