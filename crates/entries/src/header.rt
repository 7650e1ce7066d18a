// The header of an entry: its words in the text, and what they say.
ghost use Rattle.std.specs.Prelude.{◌≡◌, ℕ, ◌+◌, ◌≤◌, true, false, not, [], ◌∷◌, length, MatchOption};
ghost use Rattle.std.specs.Option.{ok_or};
ghost use Rattle.entries.specs.declared.refusal.TextRefusal.TheVariants.{BadNumber, UnknownField, UnknownWeight};
ghost use Rattle.entries.specs.Lines.{words};
ghost use Rattle.entries.specs.Names.{field_named, weight_named};
ghost use Rattle.entries.specs.Numbers.{number_of};
ghost use Rattle.entries.specs.Headers.{header_shaped, none_empty, values_of, within_limits};
ghost use Rattle.entries.specs.HeaderWords.{word_list, Columned};

use crate::names::{FieldName, WeightName};
use crate::numbers::number;
use crate::refusal::TextRefusal;
use crate::words::{Word, word_after, word_at};

// The most rows of a generator matrix, and the most symbols of a row.
pub const MOST_ROWS: usize = 32;

pub const MOST_SYMBOLS: usize = 64;

// What a header says: length n, dimension k, the claimed least distance, field and symbol weight.
#[derive(Clone, Copy, PartialEq, Eq, Debug)]
pub struct Header {
    pub n: usize,
    pub k: usize,
    pub claim: usize,
    pub field: FieldName,
    pub weight: WeightName,
}

// The six words of a header, as they stand in the text.
#[derive(Clone, Copy, PartialEq, Eq, Debug)]
pub struct HeaderWords<'t> {
    pub code: Word<'t>,
    pub n: Word<'t>,
    pub k: Word<'t>,
    pub claim: Word<'t>,
    pub field: Word<'t>,
    pub weight: Word<'t>,
}

impl HeaderWords<'_> {
    // Whether one of the words is empty. Inlined, so that the words are not copied.
    #[inline(always)]
    fn has_empty(&self) -> bool
        ensures value { not result ≡ none_empty (word_list self.now) }
    {
        let words = [
            self.code,
            self.n,
            self.k,
            self.claim,
            self.field,
            self.weight,
        ];
        words.iter().any(|word| word.bytes.is_empty())
    }
}

// The words of a header line, or none where the line is not of that shape.
pub(crate) fn header_words(line: &[u8]) -> Option<HeaderWords<'_>>
    ensures value { MatchOption result (header_shaped (words line.now) ≡ false) (λ w. (header_shaped (words line.now) ≡ true) × (words line.now ≡ word_list w) × Columned w) }
{
    let code = word_at(line, 0);
    let n = word_after(line, code)?;
    let k = word_after(line, n)?;
    let claim = word_after(line, k)?;
    let field = word_after(line, claim)?;
    let weight = word_after(line, field)?;
    if word_after(line, weight).is_some() {
        return None;
    }
    let words = HeaderWords {
        code,
        n,
        k,
        claim,
        field,
        weight,
    };
    if words.has_empty() || code.bytes != b"code".as_slice() {
        return None;
    }
    Some(words)
}

// What the words of the header in a line say, or their first fault.
pub(crate) fn header_values(words: &HeaderWords<'_>, line: usize) -> Result<Header, TextRefusal>
    requires { Columned words.now }
    ensures value { result ≡ values_of (word_list words.now) line }
{
    let n = number_in(words.n, line)?;
    let k = number_in(words.k, line)?;
    let claim = number_in(words.claim, line)?;
    let field = field_in(words.field, line)?;
    let weight = weight_in(words.weight, field, line)?;
    let header = Header {
        n,
        k,
        claim,
        field,
        weight,
    };
    header
        .within_limits()
        .then_some(header)
        .ok_or(TextRefusal::OutsideLimits { line })
}

// The number that a word of a line writes; its error has the line and the column, which `number` does not know.
fn number_in(word: Word<'_>, line: usize) -> Result<usize, TextRefusal>
    ensures value { result ≡ ok_or (number_of word.entry.bytes.now) (BadNumber line word.entry.column) }
{
    number(word.bytes).ok_or(TextRefusal::BadNumber {
        line,
        column: word.column,
    })
}

// The field that a word of a line names; its error has the line and the column.
fn field_in(word: Word<'_>, line: usize) -> Result<FieldName, TextRefusal>
    ensures value { result ≡ ok_or (field_named word.entry.bytes.now) (UnknownField line word.entry.column) }
{
    FieldName::try_from(word.bytes).map_err(|_| TextRefusal::UnknownField {
        line,
        column: word.column,
    })
}

// The symbol weight that a word of a line names beside a field; its error has the line and the column. Inlined, as the word is copied to it.
#[inline(always)]
fn weight_in(word: Word<'_>, field: FieldName, line: usize) -> Result<WeightName, TextRefusal>
    ensures value { result ≡ ok_or (weight_named word.entry.bytes.now field) (UnknownWeight line word.entry.column) }
{
    WeightName::named(word.bytes, field).ok_or(TextRefusal::UnknownWeight {
        line,
        column: word.column,
    })
}

impl Header {
    // Whether n, k and the claim keep the limits of an entry.
    #[tactic(auto, unfolding(crate::specs::Headers::within_limits))]
    pub(crate) fn within_limits(self) -> bool
        ensures value { result ≡ within_limits self }
    {
        (1..=MOST_ROWS).contains(&self.k)
            && (self.k..=MOST_SYMBOLS).contains(&self.n)
            && self.claim <= self.n * usize::from(self.weight.top(self.field))
    }
}
