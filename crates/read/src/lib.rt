// The call read: a link file taken into a net's tables.
#![tactic(auto)]

ghost use Rattle.std.specs.Prelude.{◌≡◌, ◌+◌, ◌*◌, ◌≤◌, length};
ghost use Rattle.words.specs.Word.{word_at};
ghost use Rattle.game.specs.Tree.{sound_parent};
ghost use Rattle.refusal.specs.Limits.{max_vertices};
ghost use Rattle.refusal.specs.Numbers.{code, verdict};
ghost use Rattle.refusal.specs.Outcome.{ended};
ghost use Rattle.game.specs.Net.{net};
ghost use Rattle.records.specs.LinkFile.{file_net};
ghost use Rattle.read.specs.Read.{unfit, read_refusal, read_outcome};

use net::Net;
use records::{RECORD, is_absent};
use refusal::Refusal;

// Whether the parent in the record at place `at` may be that of the vertex at rank i among n: it is absent or stands above i,
// within the table.
#[tactic(auto, unfolding(game::specs::Tree::sound_parent))]
fn is_parent_at(bytes: &[u8], at: usize, n: usize, i: usize) -> bool
    requires { at + 4 ≤ length bytes.now }
    ensures { result ≡ sound_parent n i (word_at bytes.now at) }
{
    if is_absent(bytes, at) {
        return true;
    }
    let parent = words::word_at(bytes, at) as usize;
    (i < parent) & (parent < n)
}

// What a file of n records is refused for. A wrong parent in any record comes before the total.
fn records_refusal(bytes: &[u8], n: usize) -> Result<(), Refusal>
    requires { (length bytes.now ≡ 8 * n) × (n ≤ max_vertices) }
    ensures { code result ≡ unfit (file_net bytes.now) }
{
    let mut total: u64 = 0;
    for rank in 0..n {
        let at = RECORD * rank;
        if !is_parent_at(bytes, at, n, rank) {
            return Err(Refusal::BadParent);
        }
        total += u64::from(words::word_at(bytes, at + 4));
    }
    if Net::MAX_TOTAL < total {
        return Err(Refusal::Full);
    }
    Ok(())
}

// What a reading into tables of n parents and m weights is refused for. What the tables hold is not looked at.
#[tactic(auto, unfolding(crate::specs::Read::read_refusal, refusal::specs::Refusal::first, refusal::specs::Refusal::given, refusal::specs::Refusal::wrong_length))]
fn read_refusal(n: usize, m: usize, bytes: &[u8]) -> Result<(), Refusal>
    ensures { code result ≡ read_refusal n m bytes.now }
{
    if refusal::bad_count(n) {
        return Err(Refusal::BadCount);
    }
    if m != n {
        return Err(Refusal::WrongLength);
    }
    if bytes.len() != RECORD * n {
        return Err(Refusal::BadFile);
    }
    records_refusal(bytes, n)
}

// Takes the records of a file into a net's tables.
fn take_records(parents: &mut [u32], weights: &mut [u32], bytes: &[u8])
    requires { (length weights.old ≡ length parents.old) × (length bytes.now ≡ 8 * length parents.old) }
    ensures { net parents.new weights.new ≡ file_net bytes.now }
{
    for rank in 0..parents.len() {
        let at = RECORD * rank;
        parents[rank] = words::word_at(bytes, at);
        weights[rank] = words::word_at(bytes, at + 4);
    }
}

// Read: overwrites a net with the one that a link file says. Refused, it leaves the net as it was; nothing is written before
// the whole file is checked.
pub fn read(parents: &mut [u32], weights: &mut [u32], bytes: &[u8]) -> Result<(), Refusal>
    ensures { ended (verdict result) (net parents.new weights.new)
        ≡ read_outcome (net parents.old weights.old) bytes.now }
{
    read_refusal(parents.len(), weights.len(), bytes)?;
    take_records(parents, weights, bytes);
    Ok(())
}
