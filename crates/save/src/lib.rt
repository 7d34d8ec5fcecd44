// The call save: a net as a link file.
#![tactic(auto)]

ghost use Rattle.std.specs.Prelude.{◌≡◌, ◌++◌, ◌+◌, ◌*◌, ◌≤◌, length};
ghost use Rattle.std.proofs.lemmas.List.Edits.{sets};
ghost use Rattle.words.specs.Word.{word_bytes};
ghost use Rattle.refusal.specs.Numbers.{code, verdict};
ghost use Rattle.refusal.specs.Outcome.{ended};
ghost use Rattle.game.specs.Net.{net};
ghost use Rattle.records.specs.LinkFile.{link_file};
ghost use Rattle.save.specs.Save.{save_refusal, save_outcome};

use net::Net;
use records::{RECORD, parent_bytes};
use refusal::Refusal;

// Stores a record from place `at` on.
fn put_record(bytes: &mut [u8], at: usize, parent: u32, weight: u32)
    requires { at + 8 ≤ length bytes.old }
    ensures { bytes.new ≡ sets bytes.old at (word_bytes parent ++ word_bytes weight) }
{
    words::put_word(bytes, at, parent_bytes(parent));
    words::put_word(bytes, at + 4, words::word_bytes(weight));
}

// Writes the records of a net.
fn put_records(parents: &[u32], weights: &[u32], bytes: &mut [u8])
    requires { (length weights.now ≡ length parents.now) × (length bytes.old ≡ 8 * length parents.now) }
    ensures { bytes.new ≡ link_file (net parents.now weights.now) }
{
    for rank in 0..parents.len() {
        put_record(bytes, RECORD * rank, parents[rank], weights[rank]);
    }
}

// What a save into m bytes is refused for.
#[tactic(auto, unfolding(crate::specs::Save::save_refusal, refusal::specs::Refusal::first, refusal::specs::Refusal::given, refusal::specs::Refusal::wrong_length, net::specs::Damage::damaged))]
fn save_refusal(parents: &[u32], weights: &[u32], m: usize) -> Result<(), Refusal>
    ensures { code result ≡ save_refusal (net parents.now weights.now) m }
{
    let n = parents.len();
    if refusal::bad_count(n) {
        return Err(Refusal::BadCount);
    }
    if weights.len() != n {
        return Err(Refusal::WrongLength);
    }
    if m != RECORD * n {
        return Err(Refusal::WrongLength);
    }
    if Net::of(weights).is_damaged(parents) {
        return Err(Refusal::Damaged);
    }
    Ok(())
}

// Save: writes the link file of a net. Refused, it leaves the bytes as they were.
pub fn save(parents: &[u32], weights: &[u32], bytes: &mut [u8]) -> Result<(), Refusal>
    ensures { ended (verdict result) bytes.new
        ≡ save_outcome (net parents.now weights.now) bytes.old }
{
    save_refusal(parents, weights, bytes.len())?;
    put_records(parents, weights, bytes);
    Ok(())
}
