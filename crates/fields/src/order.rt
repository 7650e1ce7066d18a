// The orders that symbol weights may have.
ghost use Rattle.std.specs.Prelude.{◌≡◌, ◌≤◌, true, false, MatchResult};
ghost use Rattle.fields.specs.Tables.{in_range};
ghost use Rattle.fields.specs.declared.refusal.FieldRefusal.TheVariants.{OrderOutside};

use crate::refusal::FieldRefusal;

// The order of a symbol weight: from 2 to 16.
#[derive(Clone, Copy)]
pub(crate) struct Order {
    pub value: u8,
    ghost low: { 2 ≤ value },
    ghost high: { value ≤ 16 },
}

impl TryFrom<u8> for Order {
    type Error = FieldRefusal;

    ghost try_from_gives = { λ q r. MatchResult r (λ order. (in_range q ≡ true) × (order.value ≡ q)) (λ e. (in_range q ≡ false) × (e ≡ OrderOutside)) };

    fn try_from(q: u8) -> Result<Order, FieldRefusal> {
        match q {
            2..=16 => Ok(Order { value: q }),
            _ => Err(FieldRefusal::OrderOutside),
        }
    }
}
