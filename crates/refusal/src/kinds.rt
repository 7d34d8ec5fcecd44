// What calls are refused for.
ghost use Rattle.std.specs.Prelude.{◌≡◌};
ghost use Rattle.refusal.specs.Numbers.{number_of};

use std::error::Error;
use std::fmt;

// What a call is refused for, with document 01's number.
#[derive(Clone, Copy, Debug, PartialEq, Eq)]
pub enum Refusal {
    // No vertex, or too many.
    BadCount = 1,
    // A table of the wrong length for the call, or a list that makes no whole ties.
    WrongLength = 2,
    // An order that is no permutation of the vertices.
    BadOrder = 3,
    // A vertex that the net does not have.
    BadVertex = 4,
    // An edge whose two ends are one vertex.
    Loop = 5,
    // A file of the wrong size.
    BadFile = 6,
    // A link file with a parent that cannot be.
    BadParent = 7,
    // A limit, a block count or a block out of range.
    BadLimit = 8,
    // A total or a list that is too large.
    Full = 20,
    // Two nets with different vertex counts.
    UnlikeCounts = 21,
    // A vertex that is too heavy for any group.
    TooHeavy = 22,
    // Edges that are not the net's own.
    OtherEdges = 23,
    // A net or an index that is damaged.
    Damaged = 30,
    // Two vertices of which one is above the other, or that are one.
    Related = 31,
    // Rows out of range.
    BadRows = 32,
}

impl Refusal {
    // Document 01's number.
    pub fn number(self) -> u32
        ensures { result ≡ number_of self }
    {
        self as u32
    }
}

// What is wrong, in a few words; the header and the hosts say it in the same ones.
impl fmt::Display for Refusal {
    ghost use Rattle.std.specs.Prelude.{Some};
    ghost use Rattle.refusal.specs.Texts.{text_of};

    ghost output = { λ refusal. Some (text_of refusal) };

    fn fmt<W: fmt::Write>(&self, f: &mut fmt::Formatter<W>) -> fmt::Result {
        f.write_str(match self {
            Refusal::BadCount => "no vertex, or more than 1,000,000",
            Refusal::WrongLength =>
                "a table of the wrong length, or an edge list that is not whole edges",
            Refusal::BadOrder => "an entry of the order is out of range or repeats",
            Refusal::BadVertex => "an edge or a query names a vertex out of range",
            Refusal::Loop => "both ends of an edge are one vertex",
            Refusal::BadFile => "not whole records, or not as many as the net has vertices",
            Refusal::BadParent => "a record's parent is neither absent nor above its vertex",
            Refusal::BadLimit => "a limit or a number of blocks out of range",
            Refusal::Full => "more than 16,000,000 edges in a list, or 96,000,000 rows in all",
            Refusal::UnlikeCounts => "two nets with different numbers of vertices",
            Refusal::TooHeavy => "a weight above the limit",
            Refusal::OtherEdges => "the edges are not those of the net",
            Refusal::Damaged => "a net or an index whose tables are damaged",
            Refusal::Related => "the two ranks are equal, or one stands above the other",
            Refusal::BadRows => "the rows of an edge are not 1 to 6",
        })
    }
}

impl Error for Refusal {}
