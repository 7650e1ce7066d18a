// Dependent rows and generator forms of a matrix, for any caller.
// The codes come with k and n, and not as a matrix of known length, since k and n are refused before the length.
ghost use Rattle.std.specs.Prelude.{◌≡◌, ◌++◌, map, length, drop, is_some, if◌then◌else◌, OnOk};
ghost use Rattle.theory.specs.Forms.{form as form_told, forms as forms_told};
ghost use Rattle.forms.specs.Matrices.{rows_of};
ghost use Rattle.forms.specs.ColumnMarks.{marked_columns};
ghost use Rattle.forms.specs.FormRecords.{record_of};
ghost use Rattle.forms.specs.Refusals.{first_dependent_row, matrix_fault, forms_fault, told, ScratchAfter};
ghost use Rattle.forms.specs.Elimination.{SameCodewords};
ghost use Rattle.forms.specs.Systematic.{FormsAreSystematic, FormIsSystematic, FormsGenerate};

use crate::checks::{check_matrix, check_rows};
use crate::form::Form;
use crate::refusal::FormsRefusal;
use fields::Field;

// The first row that is zero or a sum of multiples of the rows before it, or that there is none. The codes are k rows of n codes, one after the other.
pub fn first_dependent_row<F: Field>(
    field: &F,
    codes: &[u8],
    k: usize,
    n: usize,
    scratch: &mut [u8],
) -> Result<Option<usize>, FormsRefusal>
    ensures value { result ≡ told (matrix_fault (F.Field.meaning field.now) k n codes.now (length scratch.old)) (first_dependent_row (F.Field.meaning field.now) k n codes.now) }
    ensures scratch { ScratchAfter k n (matrix_fault (F.Field.meaning field.now) k n codes.now (length scratch.old)) scratch.old scratch.new }
{
    let matrix = check_matrix(field, codes, k, n, scratch.len())?;
    Ok(matrix.dependent_row(scratch))
}

// The form of a matrix when the marked columns are used, into a place that the caller lends; a refusal leaves that as it was.
pub fn make_form<F: Field>(
    field: &F,
    codes: &[u8],
    k: usize,
    n: usize,
    used: &[bool; 64],
    scratch: &mut [u8],
    form: &mut Form,
) -> Result<(), FormsRefusal>
    ensures value { result ≡ told (forms_fault (F.Field.meaning field.now) k n codes.now (length scratch.old)) tt }
    ensures after { form.new ≡ (if is_some (forms_fault (F.Field.meaning field.now) k n codes.now (length scratch.old)) then form.old else record_of (form_told (F.Field.meaning field.now) n (rows_of k n codes.now) (marked_columns n used.now))) }
    ensures scratch { ScratchAfter k n (matrix_fault (F.Field.meaning field.now) k n codes.now (length scratch.old)) scratch.old scratch.new }
    ensures systematic { OnOk result (FormIsSystematic (F.Field.meaning field.now) n (rows_of k n codes.now) (marked_columns n used.now)) }
    ensures generates { OnOk result (SameCodewords (F.Field.meaning field.now) n (rows_of k n codes.now) (form_told (F.Field.meaning field.now) n (rows_of k n codes.now) (marked_columns n used.now)).rows) }
{
    *form = check_rows(field, codes, k, n, scratch)?.form(used);
    Ok(())
}

// All forms of a matrix, at most eight, into places that the caller lends; their number. A refusal leaves the places as they were, and so do the forms the places behind them.
pub fn make_forms<F: Field>(
    field: &F,
    codes: &[u8],
    k: usize,
    n: usize,
    scratch: &mut [u8],
    forms: &mut [Form; 8],
) -> Result<usize, FormsRefusal>
    ensures value { result ≡ told (forms_fault (F.Field.meaning field.now) k n codes.now (length scratch.old)) (length (forms_told (F.Field.meaning field.now) n (rows_of k n codes.now))) }
    ensures after { forms.new ≡ (if is_some (forms_fault (F.Field.meaning field.now) k n codes.now (length scratch.old)) then forms.old else map record_of (forms_told (F.Field.meaning field.now) n (rows_of k n codes.now)) ++ drop (length (forms_told (F.Field.meaning field.now) n (rows_of k n codes.now))) forms.old) }
    ensures scratch { ScratchAfter k n (matrix_fault (F.Field.meaning field.now) k n codes.now (length scratch.old)) scratch.old scratch.new }
    ensures systematic { OnOk result (FormsAreSystematic (F.Field.meaning field.now) n (rows_of k n codes.now)) }
    ensures generates { OnOk result (FormsGenerate (F.Field.meaning field.now) n (rows_of k n codes.now)) }
{
    Ok(check_rows(field, codes, k, n, scratch)?.forms(forms))
}
