// The fields of a line, and the line of a rank, written from a place of a table of bytes on. The answer of each function is the place
// after what it wrote.
ghost use Rattle.std.specs.Prelude.{[], ◌∷◌, ◌++◌, ◌+◌, ◌≤◌, ◌<◌, length};
ghost use Rattle.decimal.specs.Decimal.{decimal};
ghost use Rattle.decimal.specs.Put.{PutText};
ghost use Rattle.lines.specs.Line.{spaced, parent_text, line_text};
ghost use Rattle.lines.specs.FieldSteps.{entry_room, figure_room, line_room};

use decimal::{put_byte, put_number, put_text};
use net::Net;

// The room of a number of 32 bits, ten digits at most, and of one of 64, twenty; with the byte behind it.
pub const ENTRY: usize = 11;

pub const FIGURE: usize = 21;

// The room of a line.
pub const LINE: usize = 8 * ENTRY;

// A number and the byte behind it.
fn put_field(text: &mut [u8], at: usize, x: u64, after: u8) -> usize
    requires { at + length (decimal x) < length text.old }
    ensures { PutText text.old at (decimal x ++ (after ∷ [])) text.new result }
{
    let end = put_number(text, at, x);
    put_byte(text, end, after)
}

// The same for a number of 32 bits, which takes ten digits at most.
pub fn put_entry(text: &mut [u8], at: usize, x: u32, after: u8) -> usize
    requires { at + entry_room ≤ length text.old }
    ensures { PutText text.old at (decimal x ++ (after ∷ [])) text.new result × (result ≤ at + entry_room) }
{
    put_field(text, at, u64::from(x), after)
}

// And for one of 64 bits, which takes twenty.
pub fn put_figure(text: &mut [u8], at: usize, x: u64, after: u8) -> usize
    requires { at + figure_room ≤ length text.old }
    ensures { PutText text.old at (decimal x ++ (after ∷ [])) text.new result × (result ≤ at + figure_room) }
{
    put_field(text, at, x, after)
}

// A parent, '-' if it is absent, and a space.
pub fn put_parent(text: &mut [u8], at: usize, parent: u32) -> usize
    requires { at + entry_room ≤ length text.old }
    ensures { PutText text.old at (spaced (parent_text parent)) text.new result × (result ≤ at + entry_room) }
{
    if parent == Net::ABSENT {
        return put_text(text, at, b"- ");
    }
    put_entry(text, at, parent, b' ')
}

// The line of a rank.
pub fn put_line(
    text: &mut [u8],
    at: usize,
    rank: u32,
    vertex: u32,
    parent: u32,
    weight: u32,
    reach: u32,
    top: u32,
    block: u32,
    block_count: u32,
) -> usize
    requires { at + line_room ≤ length text.old }
    ensures { PutText text.old at (line_text rank vertex parent weight reach top block block_count) text.new result × (result ≤ at + line_room) }
{
    let end = put_entry(text, at, rank, b' ');
    let end = put_entry(text, end, vertex, b' ');
    let end = put_parent(text, end, parent);
    let end = put_entry(text, end, weight, b' ');
    let end = put_entry(text, end, reach, b' ');
    let end = put_entry(text, end, top, b' ');
    let end = put_entry(text, end, block, b' ');
    put_entry(text, end, block_count, b'\n')
}
