// The step from the coefficients of some rows to the next.
ghost use Rattle.std.specs.Prelude.{◌≡◌, ◌<◌, ◌≤◌, true, length, MatchOption, slice_index};
ghost use Rattle.theory.specs.Visits.{coefficients as coefficient_lists};
ghost use Rattle.choices.specs.Places.{listed, Steps};
ghost use Rattle.choices.specs.Turns.{FullBehind, LastToTurn, turned};

// Of the places from 1 on, the last whose code is not q - 1.
fn place_to_turn(codes: &[u8], q: u8) -> Option<usize>
    requires { 2 ≤ q }
    ensures value { MatchOption result (FullBehind q codes.now 0) (λ p. LastToTurn q codes.now p) }
{
    (1..codes.len()).rev().find(|place| codes[*place] != q - 1)
}

// The code at a place goes up by one, and those behind it start over at 1.
fn turn_at(codes: &mut [u8], place: usize)
    requires { (place < length codes.old) × (slice_index codes.old place < 255) }
    ensures after { codes.new ≡ turned codes.old place }
{
    codes[place] += 1;
    codes[place + 1..].fill(1);
}

// The step to the next coefficients; false, and nothing changes, at the last. To stand at the last is no error, so the answer is a bool.
pub(crate) fn step_codes(codes: &mut [u8], q: u8) -> bool
    requires { (2 ≤ q) × (listed (coefficient_lists q (length codes.old)) codes.old ≡ true) }
    ensures value { Steps (coefficient_lists q (length codes.old)) result codes.old codes.new }
    ensures stands { listed (coefficient_lists q (length codes.old)) codes.new ≡ true }
{
    let Some(place) = place_to_turn(codes, q) else {
        return false;
    };
    turn_at(codes, place);
    true
}
