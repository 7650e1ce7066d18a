// The words by which a header names its field and its symbol weight.
ghost use Rattle.std.specs.Prelude.{◌≡◌, [], ◌∷◌, Some, codes};
ghost use Rattle.std.specs.Option.{ok_or};
ghost use Rattle.entries.specs.declared.names.WeightName.TheVariants.{Hamming, Lee};
ghost use Rattle.entries.specs.Names.{order, top, field_word, weight_word, named, field_named, goes_with, weight_named};

use std::error::Error;
use std::fmt;

// A field that an entry may name: the prime fields up to 13, and GF(4).
#[derive(Clone, Copy, PartialEq, Eq, Debug)]
pub enum FieldName {
    Gf2,
    Gf3,
    Gf4,
    Gf5,
    Gf7,
    Gf11,
    Gf13,
}

// A symbol weight that an entry may name.
#[derive(Clone, Copy, PartialEq, Eq, Debug)]
pub enum WeightName {
    Hamming,
    Lee,
}

// A word that names no field, or no symbol weight.
#[derive(Clone, Copy, PartialEq, Eq, Debug)]
pub struct UnknownName;

// The fields that an entry may name.
const FIELDS: [FieldName; 7] = [
    FieldName::Gf2,
    FieldName::Gf3,
    FieldName::Gf4,
    FieldName::Gf5,
    FieldName::Gf7,
    FieldName::Gf11,
    FieldName::Gf13,
];

// The symbol weights that an entry may name.
const WEIGHTS: [WeightName; 2] = [WeightName::Hamming, WeightName::Lee];

impl FieldName {
    // How many elements the field has.
    pub fn order(self) -> u8
        ensures value { result ≡ order self }
    {
        match self {
            FieldName::Gf2 => 2,
            FieldName::Gf3 => 3,
            FieldName::Gf4 => 4,
            FieldName::Gf5 => 5,
            FieldName::Gf7 => 7,
            FieldName::Gf11 => 11,
            FieldName::Gf13 => 13,
        }
    }

    // The word for the field.
    pub fn word(self) -> &'static str
        ensures value { result.now ≡ field_word self }
    {
        match self {
            FieldName::Gf2 => "GF(2)",
            FieldName::Gf3 => "GF(3)",
            FieldName::Gf4 => "GF(4)",
            FieldName::Gf5 => "GF(5)",
            FieldName::Gf7 => "GF(7)",
            FieldName::Gf11 => "GF(11)",
            FieldName::Gf13 => "GF(13)",
        }
    }
}

impl WeightName {
    // The most that one symbol of the field can weigh.
    pub(crate) fn top(self, field: FieldName) -> u8
        ensures value { result ≡ top self field }
    {
        match self {
            WeightName::Hamming => 1,
            WeightName::Lee => field.order() / 2,
        }
    }

    // The word for the weight.
    pub fn word(self) -> &'static str
        ensures value { result.now ≡ weight_word self }
    {
        match self {
            WeightName::Hamming => "hamming",
            WeightName::Lee => "lee",
        }
    }

    // Whether the weight goes with a field: GF(4) has no lee weight.
    fn goes_with(self, field: FieldName) -> bool
        ensures value { result ≡ goes_with field self }
    {
        self == WeightName::Hamming || field != FieldName::Gf4
    }

    // The symbol weight that a word names beside a field.
    pub(crate) fn named(word: &[u8], field: FieldName) -> Option<WeightName>
        ensures value { result ≡ weight_named word.now field }
    {
        WeightName::try_from(word)
            .ok()
            .filter(|weight| weight.goes_with(field))
    }
}

// Fields and weights have each their own list of words, of their own type.
impl TryFrom<&[u8]> for FieldName {
    type Error = UnknownName;

    ghost try_from_gives = { λ word r. r ≡ ok_or (field_named word.now) (record {}) };

    fn try_from(word: &[u8]) -> Result<FieldName, UnknownName> {
        FIELDS
            .iter()
            .find(|field| word == field.word().as_bytes())
            .copied()
            .ok_or(UnknownName)
    }
}

impl TryFrom<&[u8]> for WeightName {
    type Error = UnknownName;

    ghost try_from_gives = { λ word r. r ≡ ok_or (named weight_word word.now (Hamming ∷ Lee ∷ [])) (record {}) };

    fn try_from(word: &[u8]) -> Result<WeightName, UnknownName> {
        WEIGHTS
            .iter()
            .find(|weight| word == weight.word().as_bytes())
            .copied()
            .ok_or(UnknownName)
    }
}

impl fmt::Display for FieldName {
    ghost output = { λ field. Some (field_word field) };

    fn fmt<W: fmt::Write>(&self, f: &mut fmt::Formatter<W>) -> fmt::Result {
        f.write_str(self.word())
    }
}

impl fmt::Display for WeightName {
    ghost output = { λ weight. Some (weight_word weight) };

    fn fmt<W: fmt::Write>(&self, f: &mut fmt::Formatter<W>) -> fmt::Result {
        f.write_str(self.word())
    }
}

impl fmt::Display for UnknownName {
    ghost output = { λ _. Some (codes "a word that names no field and no symbol weight") };

    fn fmt<W: fmt::Write>(&self, f: &mut fmt::Formatter<W>) -> fmt::Result {
        f.write_str("a word that names no field and no symbol weight")
    }
}

impl Error for UnknownName {}
