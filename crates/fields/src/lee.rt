// Lee's weight: how far a code is from 0 on the circle of the codes.
ghost use Rattle.std.specs.Prelude.{◌≡◌, true, false, MatchResult};
ghost use Rattle.theory.specs.Usual.{lee};
ghost use Rattle.fields.specs.Primes.{is_prime};
ghost use Rattle.fields.specs.declared.refusal.FieldRefusal.TheVariants.{NotAPrime};
ghost use Rattle.fields.specs.Weights.{lee_laws};

use crate::prime::read_code;
use crate::primes::Prime;
use crate::refusal::FieldRefusal;
use crate::weight::SymbolWeight;

// Lee's weight on the codes below a prime p.
#[derive(Clone, Copy)]
pub struct Lee {
    p: Prime,
}

impl Lee {
    // The weight of order p, for the six primes below 16.
    pub fn new(p: u8) -> Result<Lee, FieldRefusal>
        ensures value { MatchResult result (λ w. (is_prime p ≡ true) × (w.p.value ≡ p)) (λ e. (is_prime p ≡ false) × (e ≡ NotAPrime)) }
    {
        Ok(Lee {
            p: Prime::try_from(p)?,
        })
    }
}

impl SymbolWeight for Lee {
    ghost meaning = { λ w. lee w.p.value };

    ghost lawful = { λ w. lee_laws w.p.value w.p.six };

    fn order(&self) -> u8 {
        self.p.value
    }

    fn top(&self) -> u8 {
        self.p.value / 2
    }

    fn weight(&self, a: u8) -> u8 {
        let x = read_code(self.p.value, a);
        x.min(self.p.value - x)
    }
}
