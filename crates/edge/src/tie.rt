// A tie, and the ties of a flat list as they come.
ghost use Rattle.std.specs.Prelude.{◌≡◌, min, max};

use crate::STRIDE;

// A tie: its two ends as they are written, and its rows.
#[derive(Clone, Copy, Debug, PartialEq, Eq)]
pub struct Tie {
    pub a: u32,
    pub b: u32,
    pub rows: u32,
}

impl Tie {
    // The lower of its two ends.
    pub fn lower(self) -> u32
        ensures { result ≡ min self.a self.b }
    {
        self.a.min(self.b)
    }

    // The upper of its two ends.
    pub fn upper(self) -> u32
        ensures { result ≡ max self.a self.b }
    {
        self.a.max(self.b)
    }
}

// The ties of a flat list that are still to come.
#[derive(Clone, Copy)]
pub struct Iter<'a> {
    pub(crate) list: &'a [u32],
}

impl<'a> Iterator for Iter<'a> {
    ghost use Rattle.std.specs.Iterator.{YieldsFirstBy, item_count};
    ghost use Rattle.edge.specs.Tie.{written, ties_left};

    type Item = Tie;

    ghost next_gives = { YieldsFirstBy written ties_left };

    ghost remaining = { item_count ties_left };

    fn next(&mut self) -> Option<Tie> {
        let (tie, rest) = self.list.split_first_chunk::<STRIDE>()?;
        self.list = rest;
        Some(Tie {
            a: tie[0],
            b: tie[1],
            rows: tie[2],
        })
    }
}
