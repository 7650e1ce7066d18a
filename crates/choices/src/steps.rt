// The step from a choice of rows to the next. That a place is below the number of rows is asked of each place alone: no type says it more plainly.
ghost use Rattle.std.specs.Prelude.{◌≡◌, ◌+◌, ◌<◌, ◌≤◌, true, length, MatchOption, slice_index, slice_index_or};
ghost use Rattle.choices.specs.Moves.{goes_up, at_end, AllAtEnd, FirstMovable, raised, lowered, is_choice, Steps};
ghost use Rattle.choices.specs.Choosing.{OneExchanged};

// The row above the one at a place, or k.
fn row_above(rows: &[usize], k: usize, place: usize) -> usize
    requires { place < length rows.now }
    ensures value { result ≡ slice_index_or rows.now (place + 1) k }
{
    rows.get(place + 1).copied().unwrap_or(k)
}

// Whether the row at a place goes up: an even number of rows is above it.
fn row_goes_up(rows: &[usize], place: usize) -> bool
    requires { place < length rows.now }
    ensures value { result ≡ goes_up rows.now place }
{
    (rows.len() - (place + 1)) % 2 == 0
}

// Whether the row at a place is at its end, where it goes no further: going up, right below the row above it (or k); going down, at its lowest, the number of its place.
fn row_at_end(rows: &[usize], k: usize, place: usize) -> bool
    requires { place < length rows.now }
    ensures value { result ≡ at_end k rows.now place }
{
    if row_goes_up(rows, place) {
        row_above(rows, k, place) <= rows[place].saturating_add(1)
    } else {
        rows[place] <= place
    }
}

// The lowest row that is not at its end.
fn movable_row(rows: &[usize], k: usize) -> Option<usize>
    ensures value { MatchOption result (AllAtEnd k rows.now (length rows.now)) (λ p. FirstMovable k rows.now p) }
{
    (0..rows.len()).find(|place| !row_at_end(rows, k, *place))
}

// The row at a place goes up by one, and the row below it takes its place. At place 0 there is no row below: the first write then goes to place 0 too, and the second replaces it.
fn raise_row(rows: &mut [usize], place: usize)
    requires { (place < length rows.old) × (slice_index rows.old place < 32) }
    ensures after { rows.new ≡ raised rows.old place }
{
    let row = rows[place];
    rows[place.saturating_sub(1)] = row;
    rows[place] = row + 1;
}

// The row at a place goes down by one, and the row below it goes to its lowest. At place 0 the second write replaces the first, as above.
fn lower_row(rows: &mut [usize], place: usize)
    requires { (place < length rows.old) × (0 < slice_index rows.old place) }
    ensures after { rows.new ≡ lowered rows.old place }
{
    let row = rows[place];
    rows[place.saturating_sub(1)] = place.saturating_sub(1);
    rows[place] = row - 1;
}

// The step to the next choice; false, and nothing changes, at the last. To stand at the last is no error, so the answer is a bool.
pub(crate) fn step_rows(rows: &mut [usize], k: usize) -> bool
    requires { (k ≤ 32) × (is_choice k (length rows.old) rows.old ≡ true) }
    ensures value { Steps k (length rows.old) result rows.old rows.new }
    ensures exchange { result ≡ true → OneExchanged rows.old rows.new }
    ensures stands { is_choice k (length rows.old) rows.new ≡ true }
{
    let Some(place) = movable_row(rows, k) else {
        return false;
    };
    if row_goes_up(rows, place) {
        raise_row(rows, place);
    } else {
        lower_row(rows, place);
    }
    true
}
