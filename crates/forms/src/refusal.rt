// Why a matrix is refused.
ghost use Rattle.std.specs.Prelude.{◌≡◌, Some};
ghost use Rattle.forms.specs.Refusals.{number, place};

use std::error::Error;
use std::fmt;

#[derive(Clone, Copy, PartialEq, Eq, Debug)]
pub enum FormsRefusal {
    Shape,
    Length,
    NoCode { at: usize },
    Scratch,
    DependentRow { row: usize },
}

impl FormsRefusal {
    // The number of the refusal.
    pub fn number(self) -> u8
        ensures value { result ≡ number self }
    {
        match self {
            FormsRefusal::Shape => 11,
            FormsRefusal::Length => 14,
            FormsRefusal::NoCode { .. } => 15,
            FormsRefusal::Scratch => 16,
            FormsRefusal::DependentRow { .. } => 17,
        }
    }

    // Its place: the index of what is no code, the dependent row, else 0.
    pub fn place(self) -> usize
        ensures value { result ≡ place self }
    {
        match self {
            FormsRefusal::NoCode { at } => at,
            FormsRefusal::DependentRow { row } => row,
            _ => 0,
        }
    }
}

// The words of every numbered refusal; each crate says them of its own enum, since none of these crates stands on another for them.
impl fmt::Display for FormsRefusal {
    ghost use Rattle.forms.specs.Refusals.{text};

    ghost output = { λ refusal. Some (text refusal) };

    fn fmt<W: fmt::Write>(&self, f: &mut fmt::Formatter<W>) -> fmt::Result {
        write!(f, "refused {} at {}", self.number(), self.place())
    }
}

impl Error for FormsRefusal {}
