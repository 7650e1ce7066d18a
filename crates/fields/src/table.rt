// Weights by a table of the caller's.
ghost use Rattle.std.specs.Prelude.{◌≡◌, ℕ, ◌<◌, ◌≤◌, slice_index};

use crate::order::Order;

// The weights of the codes below q, by the code. The array is as long as the largest order needs: memory is fixed.
#[derive(Clone, Copy)]
pub struct TableWeight {
    q: Order,
    of: [u8; 16],
    ghost zero: { slice_index of 0 ≡ 0 },
    ghost positive: { ((a : ℕ) → 1 ≤ a → a < q.value → 1 ≤ slice_index of a) },
    ghost bounded: { ((a : ℕ) → a < q.value → slice_index of a ≤ 8) },
}

mod steps;
