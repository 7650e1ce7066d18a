// Hamming's weight: every code but 0 weighs 1.
ghost use Rattle.std.specs.Prelude.{◌≡◌, true, false, MatchResult};
ghost use Rattle.theory.specs.Usual.{hamming};
ghost use Rattle.fields.specs.Tables.{in_range};
ghost use Rattle.fields.specs.declared.refusal.FieldRefusal.TheVariants.{OrderOutside};
ghost use Rattle.fields.specs.Weights.{hamming_laws};

use crate::order::Order;
use crate::refusal::FieldRefusal;
use crate::weight::SymbolWeight;

// Hamming's weight on the codes below q.
#[derive(Clone, Copy)]
pub struct Hamming {
    q: Order,
}

impl Hamming {
    // The weight of order q, from 2 to 16.
    pub fn new(q: u8) -> Result<Hamming, FieldRefusal>
        ensures value { MatchResult result (λ w. (in_range q ≡ true) × (w.q.value ≡ q)) (λ e. (in_range q ≡ false) × (e ≡ OrderOutside)) }
    {
        Ok(Hamming {
            q: Order::try_from(q)?,
        })
    }
}

impl SymbolWeight for Hamming {
    ghost meaning = { λ w. hamming w.q.value };

    ghost lawful = { λ w. hamming_laws w.q.value w.q.low w.q.high };

    fn order(&self) -> u8 {
        self.q.value
    }

    fn top(&self) -> u8 {
        1
    }

    fn weight(&self, a: u8) -> u8 {
        if a == 0 || a >= self.q.value { 0 } else { 1 }
    }
}
