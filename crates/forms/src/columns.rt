// The order in which a form goes through the columns, and the marks of those that are used. The marks are one array that callers lend, and no fact is said of it twice, so it has no type of its own; columns in order stand in an array of fixed size, as nothing is allocated.
ghost use Rattle.std.specs.Prelude.{◌≡◌, ℕ, ◌+◌, ◌<◌, ◌≤◌, Bool, not, ◌&&◌, ◌++◌, length, take, if◌then◌else◌, filter};
ghost use Rattle.std.specs.List.{range_with_len, AllByRecursion};
ghost use Rattle.theory.specs.Codes.{is_zero};
ghost use Rattle.theory.specs.Forms.{among, column};
ghost use Rattle.forms.specs.ColumnMarks.{marked, column_order, has_open};
ghost use Rattle.forms.specs.Shapes.{rows_in};

use crate::matrix::MatrixView;

// Whether a column is marked.
fn is_marked(marks: &[bool; 64], c: usize) -> bool
    ensures value { result ≡ marked marks.now c }
{
    marks.get(c).copied().unwrap_or(false)
}

// Whether a column is marked, or not, as asked.
fn is_wanted(marks: &[bool; 64], c: usize, wanted: bool) -> bool
    ensures value { result ≡ (if wanted then marked marks.now c else not (marked marks.now c)) }
{
    is_marked(marks, c) == wanted
}

// Puts the columns below n that are marked, or not, as asked, into the order from a place on; the place behind them, which is why it is counted. Two passes, the same loop: what is wanted is a bool, since a test lent as a closure would need a clause for each.
fn put_columns(
    marks: &[bool; 64],
    n: usize,
    wanted: bool,
    order: &mut [u8; 64],
    from: usize,
) -> usize
    requires { (n ≤ 64) × (from + length (filter (λ c. (if wanted then marked marks.now c else not (marked marks.now c))) (range_with_len 0 n)) ≤ 64) }
    ensures value { result ≡ from + length (filter (λ c. (if wanted then marked marks.now c else not (marked marks.now c))) (range_with_len 0 n)) }
    ensures after { take result order.new ≡ take from order.old ++ filter (λ c. (if wanted then marked marks.now c else not (marked marks.now c))) (range_with_len 0 n) }
{
    // The places are written by number: what a loop over `iter_mut().zip(..)` writes is not known to the check.
    let mut end = from;
    for c in 0..n {
        if is_wanted(marks, c, wanted) {
            order[end] = c as u8;
            end += 1;
        }
    }
    end
}

// First the columns below n that are not marked, then the marked ones.
pub(crate) fn order_columns(marks: &[bool; 64], n: usize) -> [u8; 64]
    requires { n ≤ 64 }
    ensures value { take n result ≡ column_order n marks.now }
    ensures columns { AllByRecursion (λ c. c < n) (take n result) }
{
    let mut order = [0u8; 64];
    let middle = put_columns(marks, n, false, &mut order, 0);
    put_columns(marks, n, true, &mut order, middle);
    order
}

// How many of the positions are not marked.
pub(crate) fn count_unmarked(marks: &[bool; 64], positions: &[u8]) -> usize
    ensures value { result ≡ length (filter (λ p. not (marked marks.now p)) positions.now) }
{
    positions
        .iter()
        .filter(|p| !is_marked(marks, usize::from(**p)))
        .count()
}

// Marks the positions.
pub(crate) fn mark(marks: &mut [bool; 64], positions: &[u8])
    requires { AllByRecursion (λ c. c < 64) positions.now }
    ensures after { (c : ℕ) → c < 64 → marked marks.new c ≡ (if among c positions.now then Bool.true else marked marks.old c) }
{
    for p in positions {
        marks[usize::from(*p)] = true;
    }
}

// Whether a column is not marked and not zero.
fn is_open(matrix: &MatrixView<'_>, marks: &[bool; 64], c: usize) -> bool
    requires { c < matrix.now.n }
    ensures value { result ≡ (not (marked marks.now c) && not (is_zero (column (rows_in matrix.now) c))) }
{
    !is_marked(marks, c) && matrix.pivot_row(0, c).is_some()
}

// Whether some column that is not marked is not zero.
pub(crate) fn has_open_column(matrix: &MatrixView<'_>, marks: &[bool; 64]) -> bool
    ensures value { result ≡ has_open matrix.now.n (rows_in matrix.now) marks.now }
{
    (0..matrix.n).any(|c| is_open(matrix, marks, c))
}
