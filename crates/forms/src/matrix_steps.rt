// The steps of an elimination for any caller: a step that does not fit its matrix is refused and changes nothing. Callers hold codes, k and n; to make a matrix of them first would be one more call that can refuse.
ghost use Rattle.std.specs.Prelude.{◌≡◌, ℕ, ◌<◌, Some, None, MatchResult, OnOk, ◌≢◌};
ghost use Rattle.theory.specs.Meanings.{FieldMeaning, FieldLaws};
ghost use Rattle.theory.specs.Facts.{Matrix};
ghost use Rattle.forms.specs.Matrices.{rows_of, symbol_at};
ghost use Rattle.forms.specs.RowSteps.{Exchanged, Scaled, Cleared};
ghost use Rattle.forms.specs.MatrixSteps.{row_fault, pivot_fault, swap_fault, clear_fault, KeepsCode};

use crate::matrix::{MatrixMut, MatrixView};
use crate::step_refusal::StepRefusal;
use fields::Field;

// Tests that the codes are k rows of n codes, of which i is one.
fn check_row(codes: &[u8], k: usize, n: usize, i: usize) -> Result<(), StepRefusal>
    ensures value { MatchResult result (λ _. row_fault k n codes.now i ≡ None) (λ e. row_fault k n codes.now i ≡ Some e) }
{
    match k.checked_mul(n) {
        Some(size) if size == codes.len() && i < k => Ok(()),
        _ => Err(StepRefusal::NoRow),
    }
}

// Tests that the codes are k rows of n codes, and that row i has a nonzero symbol in the column.
fn check_pivot(codes: &[u8], k: usize, n: usize, i: usize, column: usize) -> Result<(), StepRefusal>
    ensures value { MatchResult result (λ _. pivot_fault k n codes.now i column ≡ None) (λ e. pivot_fault k n codes.now i column ≡ Some e) }
{
    check_row(codes, k, n, i)?;
    let matrix = MatrixView { codes, k, n };
    if column < n && matrix.symbol(i, column) != 0 {
        Ok(())
    } else {
        Err(StepRefusal::NoPivot)
    }
}

// Two rows change places; a row that is not there is refused.
pub fn swap_rows(
    codes: &mut [u8],
    k: usize,
    n: usize,
    i: usize,
    j: usize,
) -> Result<(), StepRefusal>
    ensures value { MatchResult result (λ _. swap_fault k n codes.old i j ≡ None) (λ e. swap_fault k n codes.old i j ≡ Some e) }
    ensures after { MatchResult result (λ _. Exchanged n codes.old i j codes.new) (λ _. codes.new ≡ codes.old) }
    ensures code { (f : FieldMeaning) (negative inverse : ℕ → ℕ) → FieldLaws f negative inverse → KeepsCode f n (rows_of k n codes.old) (rows_of k n codes.new) }
{
    check_row(codes, k, n, i)?;
    check_row(codes, k, n, j)?;
    MatrixMut { codes, k, n }.exchange_rows(i, j);
    Ok(())
}

// A row is scaled so that it has 1 in the column; one that is 0 there, or a row or column that is not there, is refused.
pub fn scale_row<F: Field>(
    field: &F,
    codes: &mut [u8],
    k: usize,
    n: usize,
    i: usize,
    column: usize,
) -> Result<(), StepRefusal>
    ensures value { MatchResult result (λ _. pivot_fault k n codes.old i column ≡ None) (λ e. pivot_fault k n codes.old i column ≡ Some e) }
    ensures after { MatchResult result (λ _. Scaled (F.Field.meaning field.now) n codes.old i (F.Field.inversion field.now (symbol_at n codes.old i column)) codes.new) (λ _. codes.new ≡ codes.old) }
    ensures one { OnOk result (Matrix (F.Field.meaning field.now) n (rows_of k n codes.old) → symbol_at n codes.new i column ≡ 1) }
    ensures code { KeepsCode (F.Field.meaning field.now) n (rows_of k n codes.old) (rows_of k n codes.new) }
{
    check_pivot(codes, k, n, i, column)?;
    MatrixMut { codes, k, n }.scale_to_one(field, i, column);
    Ok(())
}

// Every row but the pivot loses the multiple of the pivot row that leaves 0 in the column; more than 64 columns, a pivot row that is 0 there, or a row or column that is not there, are refused.
pub fn clear_column<F: Field>(
    field: &F,
    codes: &mut [u8],
    k: usize,
    n: usize,
    pivot: usize,
    column: usize,
) -> Result<(), StepRefusal>
    ensures value { MatchResult result (λ _. clear_fault k n codes.old pivot column ≡ None) (λ e. clear_fault k n codes.old pivot column ≡ Some e) }
    ensures after { MatchResult result (λ _. Cleared (F.Field.meaning field.now) (F.Field.negation field.now) (F.Field.inversion field.now) k n codes.old pivot column codes.new) (λ _. codes.new ≡ codes.old) }
    ensures zeros { OnOk result (Matrix (F.Field.meaning field.now) n (rows_of k n codes.old) → (i : ℕ) → i < k → (i ≢ pivot) → symbol_at n codes.new i column ≡ 0) }
    ensures code { KeepsCode (F.Field.meaning field.now) n (rows_of k n codes.old) (rows_of k n codes.new) }
{
    if n > 64 {
        return Err(StepRefusal::TooWide);
    }
    check_pivot(codes, k, n, pivot, column)?;
    MatrixMut { codes, k, n }.clear_rows(field, pivot, column);
    Ok(())
}
