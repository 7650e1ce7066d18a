// Which row of a matrix is the first that is a sum of multiples of the rows before it.
ghost use Rattle.std.specs.Prelude.{◌≤◌};
ghost use Rattle.theory.specs.Facts.{Matrix};
ghost use Rattle.forms.specs.Elimination.{FirstDependentOr};
ghost use Rattle.forms.specs.Shapes.{held_rows, SameShape};

use super::MatrixMut;
use fields::Field;

impl<'a> MatrixMut<'a> {
    // The first dependent row, or that there is none. The matrix is used up by an elimination.
    pub(crate) fn first_dependent<F: Field>(&mut self, field: &F) -> Option<usize>
        requires narrow { self.old.n ≤ 64 }
        requires matrix { Matrix (F.Field.meaning field.now) self.old.n (held_rows self.old) }
        ensures value { FirstDependentOr (F.Field.meaning field.now) self.old.n (held_rows self.old) result }
        ensures same { SameShape self.old self.new }
    {
        // The number of the row is the answer.
        for i in 0..self.k {
            let Some(column) = self.view().leading_column(i) else {
                return Some(i);
            };
            self.pivot_at(field, i, column);
        }
        None
    }
}
