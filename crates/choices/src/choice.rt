// A choice of rows at its place in revolving-door order.
ghost use Rattle.std.specs.Prelude.{◌≡◌, ◌≤◌, true, IfSome};
ghost use Rattle.choices.specs.Moves.{is_choice, Steps};
ghost use Rattle.choices.specs.Kept.{KeptChoice};
ghost use Rattle.choices.specs.Choosing.{chosen, FirstOr, AllChoices, OneExchanged};

use crate::steps::step_rows;
use std::marker::Model;

// The rows 0 to 31.
#[rattlefmt::skip]
const ALL_ROWS: [usize; 32] = [
    0, 1, 2, 3, 4, 5, 6, 7, 8, 9, 10, 11, 12, 13, 14, 15,
    16, 17, 18, 19, 20, 21, 22, 23, 24, 25, 26, 27, 28, 29, 30, 31,
];

// A choice of t rows out of k: the first t of its places, in rising order. It stands somewhere in R(k, t). The array is as long as the largest choice needs: memory is fixed.
#[derive(Clone, Copy)]
pub struct Choice {
    rows: [usize; 32],
    t: usize,
    k: usize,
}

impl Model for Choice {
    ghost use Rattle.std.specs.Prelude.{◌≡◌, ◌≤◌, true, take};
    ghost use Rattle.choices.specs.Held.{HeldChoice};
    ghost use Rattle.choices.specs.Moves.{is_choice};

    ghost Value = { HeldChoice };

    ghost view = { λ c. record { rows = c.rows; t = c.t; k = c.k } };

    ghost inverse = { λ c. record { rows = c.rows; t = c.t; k = c.k } };

    ghost invariant = { λ c. (c.k ≤ 32) × (c.t ≤ c.k) × (is_choice c.k c.t (take c.t c.rows) ≡ true) };
}

impl Choice {
    // The first choice of t rows out of k, which has the lowest rows; none for k above 32 or t above k.
    pub fn first(k: usize, t: usize) -> Option<Choice>
        ensures value { FirstOr k t result }
        ensures all { AllChoices k t }
        ensures kept { IfSome result KeptChoice }
    {
        if k > 32 || t > k {
            return None;
        }
        Some(Choice {
            rows: ALL_ROWS,
            t,
            k,
        })
    }

    // How many rows are chosen.
    pub(crate) fn size(&self) -> usize
        ensures value { result ≡ self.now.t }
    {
        self.t
    }

    // The rows chosen, which stand in R(k, t).
    pub fn rows(&self) -> &[usize]
        ensures value { result.now ≡ chosen self.now }
        ensures stands { (self.now.k ≤ 32) × (self.now.t ≤ self.now.k) × (is_choice self.now.k self.now.t result.now ≡ true) }
    {
        &self.rows[..self.t]
    }

    // The step to the next choice; false, and nothing changes, at the last. To stand at the last is no error, so the answer is a bool.
    pub fn step(&mut self) -> bool
        ensures value { Steps self.old.k self.old.t result (chosen self.old) (chosen self.new) }
        ensures exchange { result ≡ true → OneExchanged (chosen self.old) (chosen self.new) }
        ensures same { (self.new.k ≡ self.old.k) × (self.new.t ≡ self.old.t) }
        ensures kept { KeptChoice self.new }
    {
        let k = self.k;
        step_rows(&mut self.rows[..self.t], k)
    }
}
