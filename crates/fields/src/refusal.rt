// Why a field or a weight is refused.
ghost use Rattle.std.specs.Prelude.{◌≡◌, Some};
ghost use Rattle.fields.specs.Refusals.{number, place};

use std::error::Error;
use std::fmt;

#[derive(Clone, Copy, PartialEq, Eq, Debug)]
pub enum FieldRefusal {
    NotAPrime,
    OrderOutside,
    ListLength,
    WeightOutside { code: u8 },
}

impl FieldRefusal {
    // The number of the refusal.
    pub fn number(self) -> u8
        ensures value { result ≡ number self }
    {
        match self {
            FieldRefusal::NotAPrime => 1,
            FieldRefusal::OrderOutside => 2,
            FieldRefusal::ListLength | FieldRefusal::WeightOutside { .. } => 3,
        }
    }

    // Its place: the code whose weight is outside, else 0.
    pub fn place(self) -> u8
        ensures value { result ≡ place self }
    {
        match self {
            FieldRefusal::WeightOutside { code } => code,
            _ => 0,
        }
    }
}

// The words of every numbered refusal; each crate says them of its own enum, since none of these crates stands on another for them.
impl fmt::Display for FieldRefusal {
    ghost use Rattle.fields.specs.Refusals.{text};

    ghost output = { λ refusal. Some (text refusal) };

    fn fmt<W: fmt::Write>(&self, f: &mut fmt::Formatter<W>) -> fmt::Result {
        write!(f, "refused {} at {}", self.number(), self.place())
    }
}

impl Error for FieldRefusal {}
