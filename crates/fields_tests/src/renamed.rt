// The field of five elements with the codes 2 and 3 exchanged.
ghost use Rattle.std.specs.Prelude.{◌≡◌, ◌<◌};
ghost use Rattle.fields_tests.specs.Renamed.{rename, renamed_five, renamed_negation, renamed_inversion};
ghost use Rattle.fields_tests.specs.RenamedLaws.{renamed_laws};

use fields::Field;

// Code 2 stands for the number 3, and code 3 for the number 2.
#[derive(Clone, Copy)]
pub struct RenamedFive;

// The number that a code stands for; a code of 5 or more stands for 0. It is its own inverse below 5.
fn number(a: u8) -> u8
    ensures value { result ≡ rename a }
    ensures below { result < 5 }
{
    match a {
        1 => 1,
        2 => 3,
        3 => 2,
        4 => 4,
        _ => 0,
    }
}

impl Field for RenamedFive {
    ghost meaning = { λ _. renamed_five };

    ghost negation = { λ _. renamed_negation };

    ghost inversion = { λ _. renamed_inversion };

    ghost lawful = { λ _. renamed_laws };

    fn order(&self) -> u8 {
        5
    }

    fn sum(&self, a: u8, b: u8) -> u8 {
        number((number(a) + number(b)) % 5)
    }

    fn product(&self, a: u8, b: u8) -> u8 {
        number(number(a) * number(b) % 5)
    }

    fn negative(&self, a: u8) -> u8 {
        number((5 - number(a)) % 5)
    }

    fn inverse(&self, a: u8) -> u8 {
        match a {
            1 => 1,
            2 => 3,
            3 => 2,
            4 => 4,
            _ => 0,
        }
    }
}
