// The prime fields: the numbers modulo 2, 3, 5, 7, 11 or 13.
ghost use Rattle.std.specs.Prelude.{◌≡◌, ◌+◌, ◌*◌, ◌/◌, ◌%◌, ◌<◌, true, false, MatchResult};
ghost use Rattle.theory.specs.Meanings.{read_below};
ghost use Rattle.theory.specs.Usual.{prime};
ghost use Rattle.fields.specs.Primes.{is_prime, negation_of, inversion_of};
ghost use Rattle.fields.specs.declared.refusal.FieldRefusal.TheVariants.{NotAPrime};
ghost use Rattle.fields.specs.Modular.{prime_laws};

use crate::field::Field;
use crate::primes::Prime;
use crate::refusal::FieldRefusal;

// A prime field, by its prime. The reciprocal is 65,536 / p rounded up, which turns a division by p into a product and a shift.
#[derive(Clone, Copy)]
pub struct PrimeField {
    p: Prime,
    reciprocal: u32,
    ghost near: { reciprocal ≡ 65536 / p.value + 1 },
}

impl PrimeField {
    // The field of order p, for the six primes below 16.
    pub fn new(p: u8) -> Result<PrimeField, FieldRefusal>
        ensures value { MatchResult result (λ f. (is_prime p ≡ true) × (f.p.value ≡ p)) (λ e. (is_prime p ≡ false) × (e ≡ NotAPrime)) }
    {
        let p = Prime::try_from(p)?;
        Ok(PrimeField {
            p,
            reciprocal: 65_536 / u32::from(p.value) + 1,
        })
    }

    // The remainder by p of the product of two codes.
    fn remainder(&self, x: u8, y: u8) -> u8
        requires { (x < self.now.p.value) × (y < self.now.p.value) }
        ensures value { result ≡ (x * y) % self.now.p.value }
        ensures below { result < self.now.p.value }
    {
        let n = u32::from(x) * u32::from(y);
        let quotient = (n * self.reciprocal) >> 16;
        (n - quotient * u32::from(self.p.value)) as u8
    }
}

// A code below the order q is read as itself, another as 0.
pub(crate) fn read_code(q: u8, a: u8) -> u8
    ensures value { result ≡ read_below q a }
    ensures below { 0 < q → result < q }
{
    if a < q { a } else { 0 }
}

impl Field for PrimeField {
    ghost meaning = { λ f. prime f.p.value };

    ghost negation = { λ f. negation_of f.p.value };

    ghost inversion = { λ f. inversion_of f.p.value };

    ghost lawful = { λ f. prime_laws f.p.value f.p.six };

    fn order(&self) -> u8 {
        self.p.value
    }

    fn sum(&self, a: u8, b: u8) -> u8 {
        let s = read_code(self.p.value, a) + read_code(self.p.value, b);
        if s >= self.p.value {
            s - self.p.value
        } else {
            s
        }
    }

    fn product(&self, a: u8, b: u8) -> u8 {
        self.remainder(read_code(self.p.value, a), read_code(self.p.value, b))
    }

    fn negative(&self, a: u8) -> u8 {
        let x = read_code(self.p.value, a);
        if x == 0 { 0 } else { self.p.value - x }
    }

    fn inverse(&self, a: u8) -> u8 {
        let x = read_code(self.p.value, a);
        if x == 0 {
            return 0;
        }
        let mut power: u8 = 1;
        for _ in 0..self.p.value - 2 {
            power = self.remainder(power, x);
        }
        power
    }
}
