// What a table of weights does.
ghost use Rattle.std.specs.Prelude.{◌≡◌, ℕ, ◌+◌, ◌<◌, ◌≤◌, ◌&&◌, [], ◌∷◌, length, not, Some, None, MatchResult, nat_le, position, slice_index};
ghost use Rattle.fields.specs.Tables.{table_of, weight_fault, table_fault};
ghost use Rattle.fields.specs.TableWeights.{told, SetTo};
ghost use Rattle.fields.specs.Weights.{table_laws};

use super::TableWeight;
use crate::order::Order;
use crate::refusal::FieldRefusal;
use crate::weight::SymbolWeight;

// The heaviest that a symbol may be.
const TOP: u8 = 8;

impl TableWeight {
    // The table of order 2, whose only weight is 1: a lawful one to set others in the place of.
    pub fn binary() -> TableWeight
        ensures value { told result ≡ table_of 2 (0 ∷ 1 ∷ []) }
    {
        filled(Order { value: 2 }, &[1])
    }

    // Takes an order and the weights of the codes 1 to q - 1, or leaves the table as it was.
    pub fn set(&mut self, q: u8, weights: &[u8]) -> Result<(), FieldRefusal>
        ensures value { MatchResult result (λ _. table_fault q weights.now ≡ None) (λ e. table_fault q weights.now ≡ Some e) }
        ensures after { SetTo result q weights.now self.old self.new }
    {
        *self = listed(q, weights)?;
        Ok(())
    }
}

// The table of an order and the weights of the codes 1 to q - 1, or its first fault.
fn listed(q: u8, weights: &[u8]) -> Result<TableWeight, FieldRefusal>
    ensures value { MatchResult result (λ table. (table_fault q weights.now ≡ None) × (told table ≡ table_of q (0 ∷ weights.now))) (λ e. table_fault q weights.now ≡ Some e) }
{
    let order = Order::try_from(q)?;
    if weights.len() != usize::from(q) - 1 {
        return Err(FieldRefusal::ListLength);
    }
    check_weights(weights)?;
    Ok(filled(order, weights))
}

// The table of an order with these weights of the codes from 1 on.
fn filled(q: Order, weights: &[u8]) -> TableWeight
    requires { table_fault q.value weights.now ≡ None }
    ensures value { told result ≡ table_of q.value (0 ∷ weights.now) }
{
    let of = shifted(weights);
    TableWeight { q, of }
}

// Whether a number may be the weight of a code: from 1 to 8.
fn is_weight(w: u8) -> bool
    ensures value { result ≡ (nat_le 1 w && nat_le w 8) }
{
    (1..=TOP).contains(&w)
}

// The place of the first weight outside 1 to 8.
fn first_outside(weights: &[u8]) -> Option<usize>
    ensures value { result ≡ position (λ w. not (nat_le 1 w && nat_le w 8)) weights.now }
{
    weights.iter().position(|w| !is_weight(*w))
}

// Tests that each weight is from 1 to 8; the first that is not is refused at its code.
fn check_weights(weights: &[u8]) -> Result<(), FieldRefusal>
    requires { length weights.now ≤ 15 }
    ensures value { MatchResult result (λ _. weight_fault 1 weights.now ≡ None) (λ e. weight_fault 1 weights.now ≡ Some e) }
{
    match first_outside(weights) {
        Some(i) => Err(FieldRefusal::WeightOutside { code: i as u8 + 1 }),
        None => Ok(()),
    }
}

// The weights by their code: 0 for 0, then those of the list.
fn shifted(weights: &[u8]) -> [u8; 16]
    requires { length weights.now ≤ 15 }
    ensures zero { slice_index result 0 ≡ 0 }
    ensures rest { (i : ℕ) → i < length weights.now → slice_index result (i + 1) ≡ slice_index weights.now i }
{
    let mut of = [0u8; 16];
    of[1..=weights.len()].copy_from_slice(weights);
    of
}

impl SymbolWeight for TableWeight {
    ghost meaning = { λ t. table_of t.q.value t.of };

    ghost lawful = { λ t. table_laws t.q.value t.of t.q.low t.q.high t.zero t.positive t.bounded };

    fn order(&self) -> u8 {
        self.q.value
    }

    fn top(&self) -> u8 {
        TOP
    }

    fn weight(&self, a: u8) -> u8 {
        if a < self.q.value {
            self.of[usize::from(a)]
        } else {
            0
        }
    }
}
