// Columns turned into unit columns, one after the other.
ghost use Rattle.std.specs.Prelude.{◌≡◌, ◌<◌, ◌≤◌, [], take, drop};
ghost use Rattle.std.specs.List.{AllByRecursion};
ghost use Rattle.theory.specs.Forms.{pick};
ghost use Rattle.theory.specs.Facts.{Matrix};
ghost use Rattle.forms.specs.Matrices.{rows_of};
ghost use Rattle.forms.specs.RowSteps.{Pivoted, Takes};
ghost use Rattle.forms.specs.Elimination.{Eliminated};
ghost use Rattle.forms.specs.Shapes.{held_rows, SameShape};

use super::MatrixMut;
use fields::Field;

impl<'a> MatrixMut<'a> {
    // A row becomes the pivot row of a column: it is scaled to 1 there, and the column is cleared in the others.
    #[inline(always)]
    pub(crate) fn pivot_at<F: Field>(&mut self, field: &F, pivot: usize, column: usize)
        requires { (self.old.n ≤ 64) × (column < self.old.n) × (pivot < self.old.k) }
        ensures after { Pivoted (F.Field.meaning field.now) (F.Field.negation field.now) (F.Field.inversion field.now) self.old.k self.old.n self.old.codes.now pivot column self.new.codes.now }
        ensures same { SameShape self.old self.new }
    {
        self.scale_to_one(field, pivot, column);
        self.clear_rows(field, pivot, column);
    }

    // Takes a column, if it is independent of the `done` columns taken before; false, and nothing changes, if it is not, which is no error.
    pub(crate) fn take_column<F: Field>(&mut self, field: &F, done: usize, column: usize) -> bool
        requires { (self.old.n ≤ 64) × (column < self.old.n) × (done < self.old.k) }
        ensures value { Takes (F.Field.meaning field.now) (F.Field.negation field.now) (F.Field.inversion field.now) self.old.k self.old.n done column result self.old.codes.now self.new.codes.now }
        ensures same { SameShape self.old self.new }
    {
        let Some(row) = self.view().pivot_row(done, column) else {
            return false;
        };
        self.exchange_rows(done, row);
        self.pivot_at(field, done, column);
        true
    }

    // Goes through columns in the order given and takes each that it can, up to as many as there are rows; the number taken, which is why it is counted. The positions have a fixed place of the caller's, as nothing is allocated.
    pub(crate) fn take_columns<F: Field>(
        &mut self,
        field: &F,
        order: &[u8],
        positions: &mut [u8; 32],
    ) -> usize
        requires shape { (self.old.n ≤ 64) × (self.old.k ≤ 32) }
        requires columns { AllByRecursion (λ c. c < self.old.n) order.now }
        requires matrix { Matrix (F.Field.meaning field.now) self.old.n (held_rows self.old) }
        ensures taken { (result ≤ self.old.k) × (take result positions.new ≡ pick (F.Field.meaning field.now) (held_rows self.old) [] order.now) }
        ensures rest { drop result positions.new ≡ drop result positions.old }
        ensures rows { Eliminated (F.Field.meaning field.now) self.old.n (held_rows self.old) (take result positions.new) (rows_of self.old.k self.old.n self.new.codes.now) }
        ensures same { SameShape self.old self.new }
    {
        let mut done = 0;
        for c in order {
            if done < self.k && self.take_column(field, done, usize::from(*c)) {
                positions[done] = *c;
                done += 1;
            }
        }
        done
    }
}
