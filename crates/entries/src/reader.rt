// The reader of a text's parts.
ghost use Rattle.std.specs.Prelude.{◌≡◌, ◌≤◌, length, drop};
ghost use Rattle.entries.specs.Lines.{lines};

use crate::part::Due;

// The most bytes of a text.
pub const MOST_BYTES: usize = 60_000;

// A text with the place reached in it: the lines passed, where the next begins, and what it is to be.
#[derive(Clone, Copy)]
pub struct PartReader<'t> {
    text: &'t [u8],
    at: usize,
    passed: usize,
    due: Due,
    ghost within: { at ≤ length text.now },
    ghost few: { passed ≤ at },
    ghost place: { drop passed (lines text.now) ≡ lines (drop at text.now) },
}

mod steps;
