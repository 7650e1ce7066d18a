// The field of four elements.
ghost use Rattle.std.specs.Prelude.{◌≡◌, ◌+◌, ◌*◌, ◌<◌, slice_index};
ghost use Rattle.theory.specs.Meanings.{read_below};
ghost use Rattle.fields.specs.Fours.{four, four_inverse, products};
ghost use Rattle.fields.specs.Four.{four_laws};

use crate::field::Field;
use crate::prime::read_code;

// GF(4): the codes 2 and 3 are the two elements beside 0 and 1.
#[derive(Clone, Copy)]
pub struct Gf4;

impl Field for Gf4 {
    ghost meaning = { λ _. four };

    ghost negation = { λ _. read_below 4 };

    ghost inversion = { λ _. four_inverse };

    ghost lawful = { λ f. four_laws };

    fn order(&self) -> u8 {
        4
    }

    fn sum(&self, a: u8, b: u8) -> u8 {
        read_code(4, a) ^ read_code(4, b)
    }

    fn product(&self, a: u8, b: u8) -> u8 {
        bit_product(read_code(4, a), read_code(4, b))
    }

    fn negative(&self, a: u8) -> u8 {
        read_code(4, a)
    }

    fn inverse(&self, a: u8) -> u8 {
        match a {
            1 => 1,
            2 => 3,
            3 => 2,
            _ => 0,
        }
    }
}

// The product of two codes below 4 by their bits: with x * x = x + 1, (a1 x + a0) (b1 x + b0) = (a1 b1 + a1 b0 + a0 b1) x + a1 b1 + a0 b0.
fn bit_product(a: u8, b: u8) -> u8
    requires { (a < 4) × (b < 4) }
    ensures value { result ≡ slice_index products (4 * a + b) }
{
    let both = (a >> 1) & (b >> 1);
    let high = both ^ ((a >> 1) & b & 1) ^ (a & 1 & (b >> 1));
    let low = both ^ (a & b & 1);
    2 * high + low
}
