// A part of an entry text, and what part is due.
ghost use Rattle.std.specs.Prelude.{◌≡◌, ◌≢◌, ℕ, List, MatchOption};
ghost use Rattle.entries.specs.declared.header.Header.{Header};
ghost use Rattle.entries.specs.Parts.{header_part, content};

use crate::header::{Header, HeaderWords};

// A line of the text by what it is; words and symbols are the very bytes of the text, lines and columns count from 1.
#[derive(Clone, Copy, PartialEq, Eq, Debug)]
pub enum Part<'t> {
    Header {
        words: HeaderWords<'t>,
        values: Header,
        line: usize,
    },
    Row {
        symbols: &'t [u8],
        line: usize,
        column: usize,
    },
    Gap {
        line: usize,
        column: usize,
    },
}

impl Part<'_> {
    // What the part says, if it is a header.
    pub(crate) fn header(self) -> Option<Header>
        ensures value { MatchOption result ((words : List (List ℕ)) (h : Header) → content self.entry ≢ header_part words h) (λ h. (words : List (List ℕ)) × (content self.entry ≡ header_part words h)) }
    {
        match self {
            Part::Header { values, .. } => Some(values),
            Part::Row { .. } | Part::Gap { .. } => None,
        }
    }
}

// What the next line is to be: a header, a row of an entry with so many rows after it, or the end of an entry.
#[derive(Clone, Copy, PartialEq, Eq, Debug)]
pub(crate) enum Due {
    Header,
    Row { header: Header, after: usize },
    Ending,
}
