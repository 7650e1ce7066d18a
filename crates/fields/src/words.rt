// Sums and multiples of words, in place.
ghost use Rattle.std.specs.Prelude.{◌≡◌, length, MatchResult, Some, codes, ◌==◌, false};
ghost use Rattle.theory.specs.Codes.{plus, times};

use crate::field::Field;
use std::error::Error;
use std::fmt;

// Two words that were to be added have different lengths.
#[derive(Clone, Copy, PartialEq, Eq, Debug)]
pub struct LengthsDiffer;

impl fmt::Display for LengthsDiffer {
    ghost output = { λ _. Some (codes "words of different lengths") };

    fn fmt<W: fmt::Write>(&self, f: &mut fmt::Formatter<W>) -> fmt::Result {
        f.write_str("words of different lengths")
    }
}

impl Error for LengthsDiffer {}

// A word becomes its multiple by a code.
pub fn multiply<F: Field>(field: &F, factor: u8, word: &mut [u8])
    ensures after { word.new ≡ times (F.Field.meaning field.now) factor word.old }
{
    for a in word.iter_mut() {
        *a = field.product(factor, *a);
    }
}

// A word gains a multiple of another one of the same length, or nothing changes.
pub fn add_multiple<F: Field>(
    field: &F,
    factor: u8,
    source: &[u8],
    target: &mut [u8],
) -> Result<(), LengthsDiffer>
    ensures after { MatchResult result (λ _. (length source.now ≡ length target.old) × (target.new ≡ plus (F.Field.meaning field.now) target.old (times (F.Field.meaning field.now) factor source.now))) (λ _. ((length source.now == length target.old) ≡ false) × (target.new ≡ target.old)) }
{
    if source.len() != target.len() {
        return Err(LengthsDiffer);
    }
    // Not by `iter_mut().zip(..)`: what a loop over it writes is not known to the check.
    for (i, s) in source.iter().enumerate() {
        target[i] = field.sum(target[i], field.product(factor, *s));
    }
    Ok(())
}
