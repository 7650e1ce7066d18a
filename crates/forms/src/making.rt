// The forms of a generator matrix. Positions and rows stand in arrays of fixed size, and forms in places of the caller, as nothing is allocated.
ghost use Rattle.std.specs.Prelude.{◌≡◌, ℕ, ◌*◌, ◌<◌, ◌≤◌, List, [], ◌++◌, map, length, take, drop};
ghost use Rattle.std.specs.List.{AllByRecursion};
ghost use Rattle.theory.specs.Forms.{pick, form as form_told, forms as forms_told};
ghost use Rattle.forms.specs.Matrices.{rows_of};
ghost use Rattle.forms.specs.Elimination.{Eliminated, SameCodewords};
ghost use Rattle.forms.specs.ColumnMarks.{MarksUsed, marked_columns};
ghost use Rattle.forms.specs.Systematic.{FormsAreSystematic, FormIsSystematic, FormsGenerate};
ghost use Rattle.forms.specs.FormRecords.{record_of};
ghost use Rattle.forms.specs.Shapes.{rows_in};

use crate::columns::{count_unmarked, has_open_column, mark, order_columns};
use crate::form::Form;
use crate::generator::GeneratorMatrix;
use crate::matrix::{MatrixMut, MatrixView};
use fields::Field;

impl<'a, F: Field> GeneratorMatrix<'a, F> {
    // Copies the matrix into rows that the caller lends and takes columns there, in the order given; their number.
    fn eliminate(&self, order: &[u8], rows: &mut [u8], positions: &mut [u8; 32]) -> usize
        requires columns { AllByRecursion (λ c. c < self.now.rows.matrix.n) order.now }
        requires room { length rows.old ≡ self.now.rows.matrix.k * self.now.rows.matrix.n }
        ensures taken { (result ≤ self.now.rows.matrix.k) × (take result positions.new ≡ pick (F.Field.meaning self.now.rows.field.now) (rows_in self.now.rows.matrix) [] order.now) }
        ensures rest { drop result positions.new ≡ drop result positions.old }
        ensures rows { Eliminated (F.Field.meaning self.now.rows.field.now) self.now.rows.matrix.n (rows_in self.now.rows.matrix) (take result positions.new) (rows_of self.now.rows.matrix.k self.now.rows.matrix.n rows.new) }
    {
        let MatrixView { codes, k, n } = self.rows.matrix;
        rows.copy_from_slice(codes);
        MatrixMut { codes: rows, k, n }.take_columns(self.rows.field, order, positions)
    }

    // The form of the matrix, when the columns used are marked.
    pub(crate) fn form(&self, marks: &[bool; 64]) -> Form
        ensures value { (used : List ℕ) → MarksUsed self.now.rows.matrix.n marks.now used → result ≡ record_of (form_told (F.Field.meaning self.now.rows.field.now) self.now.rows.matrix.n (rows_in self.now.rows.matrix) used) }
        ensures marked { result ≡ record_of (form_told (F.Field.meaning self.now.rows.field.now) self.now.rows.matrix.n (rows_in self.now.rows.matrix) (marked_columns self.now.rows.matrix.n marks.now)) }
        ensures systematic { FormIsSystematic (F.Field.meaning self.now.rows.field.now) self.now.rows.matrix.n (rows_in self.now.rows.matrix) (marked_columns self.now.rows.matrix.n marks.now) }
        ensures generates { SameCodewords (F.Field.meaning self.now.rows.field.now) self.now.rows.matrix.n (rows_in self.now.rows.matrix) (form_told (F.Field.meaning self.now.rows.field.now) self.now.rows.matrix.n (rows_in self.now.rows.matrix) (marked_columns self.now.rows.matrix.n marks.now)).rows }
    {
        let MatrixView { k, n, .. } = self.rows.matrix;
        let order = order_columns(marks, n);
        let mut positions = [0u8; 32];
        let mut rows = [0u8; 2048];
        self.eliminate(&order[..n], &mut rows[..k * n], &mut positions);
        let rank = count_unmarked(marks, &positions[..k]);
        Form {
            positions,
            rank,
            rows,
        }
    }

    // All forms of the matrix, one after the other, into the places that the caller lends; their number.
    pub(crate) fn forms(&self, forms: &mut [Form; 8]) -> usize
        ensures value { result ≡ length (forms_told (F.Field.meaning self.now.rows.field.now) self.now.rows.matrix.n (rows_in self.now.rows.matrix)) }
        ensures after { forms.new ≡ map record_of (forms_told (F.Field.meaning self.now.rows.field.now) self.now.rows.matrix.n (rows_in self.now.rows.matrix)) ++ drop result forms.old }
        ensures systematic { FormsAreSystematic (F.Field.meaning self.now.rows.field.now) self.now.rows.matrix.n (rows_in self.now.rows.matrix) }
        ensures generates { FormsGenerate (F.Field.meaning self.now.rows.field.now) self.now.rows.matrix.n (rows_in self.now.rows.matrix) }
    {
        let matrix = self.rows.matrix;
        let mut marks = [false; 64];
        // Not by `iter_mut().enumerate()`: what a loop over it writes is not known to the check.
        for j in 0..8 {
            if !has_open_column(&matrix, &marks) {
                return j;
            }
            let next = self.form(&marks);
            mark(&mut marks, &next.positions[..matrix.k]);
            forms[j] = next;
        }
        8
    }
}
