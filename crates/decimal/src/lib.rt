// Text written into a table of bytes: bytes, numbers in decimal, and byte strings, each from a place on. The answer is the place after it.
#![tactic(auto)]

ghost use Rattle.std.specs.Prelude.{◌≡◌, [], ◌∷◌, ◌+◌, ◌≤◌, ◌<◌, length};
ghost use Rattle.decimal.specs.Decimal.{decimal};
ghost use Rattle.decimal.specs.Put.{PutText};

// Writes a byte.
pub fn put_byte(out: &mut [u8], at: usize, byte: u8) -> usize
    requires { at < length out.old }
    ensures { PutText out.old at (byte ∷ []) out.new result }
{
    out[at] = byte;
    at + 1
}

// The digit of a number below 10.
fn digit(x: u64) -> u8
    requires { x < 10 }
    ensures { result ≡ 48 + x }
{
    b'0' + x as u8
}

// Writes a number in decimal: the digits of its tenth, then its last one.
pub fn put_number(out: &mut [u8], at: usize, x: u64) -> usize
    requires { at + length (decimal x) ≤ length out.old }
    ensures { PutText out.old at (decimal x) out.new result }
{
    if x < 10 {
        return put_byte(out, at, digit(x));
    }
    let last = put_number(out, at, x / 10);
    put_byte(out, last, digit(x % 10))
}

// Writes a byte string.
pub fn put_text(out: &mut [u8], at: usize, text: &[u8]) -> usize
    requires { at + length text.now ≤ length out.old }
    ensures { PutText out.old at text.now out.new result }
{
    let end = at + text.len();
    out[at..end].copy_from_slice(text);
    end
}
