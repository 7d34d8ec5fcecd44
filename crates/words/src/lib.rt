// Little-endian 32-bit words in bytes.
#![tactic(auto)]

ghost use Rattle.std.specs.Prelude.{◌≡◌, ◌+◌, ◌≤◌, ◌%◌, length};
ghost use Rattle.std.proofs.lemmas.List.Edits.{sets};
ghost use Rattle.words.specs.Word.{word_bytes, word_of, word_at};

// The word of four bytes, the lowest first.
#[tactic(auto, unfolding(crate::specs::Word::word_of))]
pub fn word(a: u8, b: u8, c: u8, d: u8) -> u32
    ensures { result ≡ word_of a b c d }
{
    u32::from_le_bytes([a, b, c, d])
}

// The word of the four bytes from place `at` on.
#[tactic(auto, unfolding(crate::specs::Word::word_at))]
pub fn word_at(bytes: &[u8], at: usize) -> u32
    requires { at + 4 ≤ length bytes.now }
    ensures { result ≡ word_at bytes.now at }
{
    word(bytes[at], bytes[at + 1], bytes[at + 2], bytes[at + 3])
}

// The four bytes of a word, the lowest first.
#[tactic(auto, unfolding(crate::specs::Word::word_bytes))]
pub fn word_bytes(x: u32) -> [u8; 4]
    ensures { result ≡ word_bytes x }
{
    x.to_le_bytes()
}

// Stores four bytes from place `at` on.
pub fn put_word(bytes: &mut [u8], at: usize, four: [u8; 4])
    requires { at + 4 ≤ length bytes.old }
    ensures { bytes.new ≡ sets bytes.old at four }
{
    bytes[at..at + 4].copy_from_slice(&four);
}
