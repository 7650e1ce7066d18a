// The steps of an elimination: rows exchanged, a row multiplied, a column cleared.
ghost use Rattle.std.specs.Prelude.{◌≡◌, ◌<◌, ◌≤◌};
ghost use Rattle.forms.specs.Matrices.{symbol_at};
ghost use Rattle.forms.specs.RowSteps.{Exchanged, Scaled, Cleared};
ghost use Rattle.forms.specs.Shapes.{SameShape};

use super::{MatrixMut, MatrixView};
use fields::{Field, add_multiple, multiply};

impl<'a> MatrixMut<'a> {
    // The matrix as it is now.
    pub(crate) fn view(&self) -> MatrixView<'_>
        ensures value { (result.codes.now ≡ self.now.codes.now) × (result.k ≡ self.now.k) × (result.n ≡ self.now.n) }
    {
        MatrixView {
            codes: self.codes,
            k: self.k,
            n: self.n,
        }
    }

    // Two rows change places.
    pub(crate) fn exchange_rows(&mut self, i: usize, j: usize)
        requires { (i < self.old.k) × (j < self.old.k) }
        ensures after { Exchanged self.old.n self.old.codes.now i j self.new.codes.now }
        ensures same { SameShape self.old self.new }
    {
        let n = self.n;
        // Not by `split_at_mut` and `swap_with_slice`: what they leave of a field of `self` is not known to the check.
        for c in 0..n {
            self.codes.swap(i * n + c, j * n + c);
        }
    }

    // A row becomes its multiple by a code.
    fn scale_row<F: Field>(&mut self, field: &F, i: usize, factor: u8)
        requires { i < self.old.k }
        ensures after { Scaled (F.Field.meaning field.now) self.old.n self.old.codes.now i factor self.new.codes.now }
        ensures same { SameShape self.old self.new }
    {
        let start = i * self.n;
        let end = start + self.n;
        multiply(field, factor, &mut self.codes[start..end]);
    }

    // A row is divided by its symbol in a column.
    pub(crate) fn scale_to_one<F: Field>(&mut self, field: &F, i: usize, column: usize)
        requires { (i < self.old.k) × (column < self.old.n) }
        ensures after { Scaled (F.Field.meaning field.now) self.old.n self.old.codes.now i (F.Field.inversion field.now (symbol_at self.old.n self.old.codes.now i column)) self.new.codes.now }
        ensures same { SameShape self.old self.new }
    {
        let inverse = field.inverse(self.view().symbol(i, column));
        self.scale_row(field, i, inverse);
    }

    // Each row but the pivot loses the multiple of the pivot row that leaves 0 in the column.
    // Inlined, so that its loops know the length of a row where a caller does.
    #[inline(always)]
    pub(crate) fn clear_rows<F: Field>(&mut self, field: &F, pivot: usize, column: usize)
        requires { (self.old.n ≤ 64) × (column < self.old.n) × (pivot < self.old.k) }
        ensures after { Cleared (F.Field.meaning field.now) (F.Field.negation field.now) (F.Field.inversion field.now) self.old.k self.old.n self.old.codes.now pivot column self.new.codes.now }
        ensures same { SameShape self.old self.new }
    {
        let n = self.n;
        let mut held = [0u8; 64];
        let source = &mut held[..n];
        source.copy_from_slice(self.view().row(pivot));
        let inverse = field.inverse(source[column]);
        // Not by `chunks_exact_mut`: what a loop over it writes is not known to the check.
        for i in 0..self.k {
            if i != pivot {
                let start = i * n;
                let row = &mut self.codes[start..start + n];
                let factor = field.negative(field.product(row[column], inverse));
                // Both have n numbers, so no refusal comes.
                let _ = add_multiple(field, factor, source, row);
            }
        }
    }
}
