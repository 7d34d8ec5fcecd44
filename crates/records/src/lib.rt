// The records of a link file, below saving and reading: both take the size of a record and an absent parent's bytes from here, so that
// what one writes is what the other compares with.
#![tactic(auto)]

ghost use Rattle.std.specs.Prelude.{◌≡◌, ◌+◌, ◌≤◌, eqb, length};
ghost use Rattle.words.specs.Word.{word_bytes, word_at};
ghost use Rattle.game.specs.Game.{absent};

use net::Net;

// The size of a record: a parent and a weight.
pub const RECORD: usize = 8;

// The four bytes of an absent parent: a save writes them, a reading compares with them.
const ABSENT_BYTES: [u8; 4] = *b"\xff\xff\xff\xff";

// The four bytes of a parent.
#[tactic(auto, unfolding(words::specs::Word::word_bytes))]
pub fn parent_bytes(parent: u32) -> [u8; 4]
    ensures { result ≡ word_bytes parent }
{
    if parent == Net::ABSENT {
        return ABSENT_BYTES;
    }
    words::word_bytes(parent)
}

// Whether the four bytes from place `at` on are those of an absent parent.
pub fn is_absent(bytes: &[u8], at: usize) -> bool
    requires { at + 4 ≤ length bytes.now }
    ensures { result ≡ eqb (word_at bytes.now at) absent }
{
    [bytes[at], bytes[at + 1], bytes[at + 2], bytes[at + 3]] == ABSENT_BYTES
}
