// Why a roll or a trail is refused.
ghost use Rattle.std.specs.Prelude.{◌≡◌, Some};
ghost use Rattle.records.specs.Refusals.{roll_number, number, place, roll_text, text};

use std::error::Error;
use std::fmt;

#[derive(Clone, Copy, PartialEq, Eq, Debug)]
pub enum RollRefusal {
    Full,
    NoRecord,
}

#[derive(Clone, Copy, PartialEq, Eq, Debug)]
pub enum TrailRefusal {
    BufferShort,
    PartialRecord,
    FieldOutside { at: usize },
    RollFull { at: usize },
}

impl RollRefusal {
    // The number of the refusal; its place is 0.
    pub fn number(self) -> u8
        ensures value { result ≡ roll_number self }
    {
        match self {
            RollRefusal::Full => 41,
            RollRefusal::NoRecord => 42,
        }
    }
}

impl TrailRefusal {
    // The number of the refusal.
    pub fn number(self) -> u8
        ensures value { result ≡ number self }
    {
        match self {
            TrailRefusal::BufferShort => 50,
            TrailRefusal::PartialRecord => 52,
            TrailRefusal::FieldOutside { .. } => 53,
            TrailRefusal::RollFull { .. } => 41,
        }
    }

    // Its place: the record, else 0.
    pub fn place(self) -> usize
        ensures value { result ≡ place self }
    {
        match self {
            TrailRefusal::BufferShort | TrailRefusal::PartialRecord => 0,
            TrailRefusal::FieldOutside { at } => at,
            TrailRefusal::RollFull { at } => at,
        }
    }
}

impl fmt::Display for RollRefusal {
    ghost output = { λ refusal. Some (roll_text refusal) };

    fn fmt<W: fmt::Write>(&self, f: &mut fmt::Formatter<W>) -> fmt::Result {
        write!(f, "refused {} at 0", self.number())
    }
}

impl Error for RollRefusal {}

// The words of every numbered refusal; each crate says them of its own enum, since none of these crates stands on another for them.
impl fmt::Display for TrailRefusal {
    ghost output = { λ refusal. Some (text refusal) };

    fn fmt<W: fmt::Write>(&self, f: &mut fmt::Formatter<W>) -> fmt::Result {
        write!(f, "refused {} at {}", self.number(), self.place())
    }
}

impl Error for TrailRefusal {}
