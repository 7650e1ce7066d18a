// The coefficients of the rows of a choice, at their place in order.
ghost use Rattle.std.specs.Prelude.{◌≡◌, ◌≤◌, true, IfSome};
ghost use Rattle.theory.specs.Visits.{coefficients as coefficient_lists};
ghost use Rattle.choices.specs.Places.{listed, StandsAt, Steps};
ghost use Rattle.choices.specs.Coefficients.{codes_of, FirstListOr, AllLists};
ghost use Rattle.choices.specs.Kept.{KeptCoefficients};

use crate::turns::step_codes;
use std::marker::Model;

// The coefficients of t rows over a field of order q: the first t of its codes, that of the lowest row first. They stand somewhere among all such lists. The array is as long as the longest list needs: memory is fixed.
#[derive(Clone, Copy)]
pub struct Coefficients {
    codes: [u8; 32],
    t: usize,
    q: u8,
}

impl Model for Coefficients {
    ghost use Rattle.std.specs.Prelude.{◌≡◌, ◌≤◌, true, take};
    ghost use Rattle.theory.specs.Visits.{coefficients as coefficient_lists};
    ghost use Rattle.choices.specs.Held.{HeldCoefficients};
    ghost use Rattle.choices.specs.Places.{listed};

    ghost Value = { HeldCoefficients };

    ghost view = { λ c. record { codes = c.codes; t = c.t; q = c.q } };

    ghost inverse = { λ c. record { codes = c.codes; t = c.t; q = c.q } };

    ghost invariant = { λ c. (c.t ≤ 32) × (2 ≤ c.q) × (listed (coefficient_lists c.q c.t) (take c.t c.codes) ≡ true) };
}

impl Coefficients {
    // The first coefficients of t rows over q codes, which are all 1; none for q below 2, for t above 32 and for no rows.
    pub fn first(q: u8, t: usize) -> Option<Coefficients>
        ensures value { FirstListOr q t result }
        ensures all { AllLists q t }
        ensures kept { IfSome result KeptCoefficients }
    {
        if q < 2 || t == 0 || t > 32 {
            return None;
        }
        Some(Coefficients {
            codes: [1; 32],
            t,
            q,
        })
    }

    // The coefficients, that of the lowest row first, which stand among all such lists.
    pub fn codes(&self) -> &[u8]
        ensures value { result.now ≡ codes_of self.now }
        ensures stands { (self.now.t ≤ 32) × (2 ≤ self.now.q) × (listed (coefficient_lists self.now.q self.now.t) result.now ≡ true) }
    {
        &self.codes[..self.t]
    }

    // The step to the next coefficients; false, and nothing changes, at the last. To stand at the last is no error, so the answer is a bool.
    pub fn step(&mut self) -> bool
        ensures value { Steps (coefficient_lists self.old.q self.old.t) result (codes_of self.old) (codes_of self.new) }
        ensures same { (self.new.q ≡ self.old.q) × (self.new.t ≡ self.old.t) }
        ensures kept { KeptCoefficients self.new }
    {
        let q = self.q;
        step_codes(&mut self.codes[..self.t], q)
    }

    // Back to the first coefficients.
    pub fn restart(&mut self)
        ensures after { StandsAt (coefficient_lists self.old.q self.old.t) 0 (codes_of self.new) }
        ensures same { (self.new.q ≡ self.old.q) × (self.new.t ≡ self.old.t) }
        ensures kept { KeptCoefficients self.new }
    {
        self.codes = [1; 32];
    }
}
