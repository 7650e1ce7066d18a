// The primes below 16.
ghost use Rattle.std.specs.Prelude.{◌≡◌, true, false, MatchResult};
ghost use Rattle.fields.specs.Primes.{is_prime};
ghost use Rattle.fields.specs.declared.refusal.FieldRefusal.TheVariants.{NotAPrime};

use crate::refusal::FieldRefusal;

// One of the primes 2, 3, 5, 7, 11 and 13.
#[derive(Clone, Copy)]
pub(crate) struct Prime {
    pub value: u8,
    ghost six: { is_prime value ≡ true },
}

impl TryFrom<u8> for Prime {
    type Error = FieldRefusal;

    ghost try_from_gives = { λ p r. MatchResult r (λ prime. (is_prime p ≡ true) × (prime.value ≡ p)) (λ e. (is_prime p ≡ false) × (e ≡ NotAPrime)) };

    fn try_from(p: u8) -> Result<Prime, FieldRefusal> {
        match p {
            2 | 3 | 5 | 7 | 11 | 13 => Ok(Prime { value: p }),
            _ => Err(FieldRefusal::NotAPrime),
        }
    }
}
