// The reader of a text's entries.
ghost use Rattle.std.specs.Prelude.{◌≡◌, true};
ghost use Rattle.entries.specs.Parts.{header_due};

use crate::reader::PartReader;

// The most codes that the rows of an entry can have: 32 rows of 64.
pub const MOST_CODES: usize = 2048;

// A text read up to the end of an entry, or not at all yet.
#[derive(Clone, Copy)]
pub struct EntryReader<'t> {
    parts: PartReader<'t>,
    ghost between: { header_due parts.due ≡ true },
}

mod steps;
