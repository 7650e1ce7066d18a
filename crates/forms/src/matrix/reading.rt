// What is read of a matrix: its symbols and rows, and where a row or a column has its first symbol that is not 0.
ghost use Rattle.std.specs.Prelude.{◌≡◌, ◌<◌, true, length, MatchOption};
ghost use Rattle.theory.specs.Codes.{is_zero};
ghost use Rattle.forms.specs.Matrices.{row_at, symbol_at, ZeroIn, FirstPivot};

use super::MatrixView;

impl<'a> MatrixView<'a> {
    // A row.
    pub(crate) fn row(&self, i: usize) -> &'a [u8]
        requires { i < self.now.k }
        ensures value { result.now ≡ row_at self.now.n self.now.codes.now i }
        ensures long { length result.now ≡ self.now.n }
    {
        let start = i * self.n;
        &self.codes[start..start + self.n]
    }

    // The symbol of a row in a column.
    pub(crate) fn symbol(&self, i: usize, column: usize) -> u8
        requires { (i < self.now.k) × (column < self.now.n) }
        ensures value { result ≡ symbol_at self.now.n self.now.codes.now i column }
    {
        self.row(i)[column]
    }

    // The first row from `from` on that is not 0 in the column.
    pub(crate) fn pivot_row(&self, from: usize, column: usize) -> Option<usize>
        requires { column < self.now.n }
        ensures value { MatchOption result (ZeroIn self.now.n self.now.codes.now column from self.now.k) (λ p. FirstPivot self.now.n self.now.codes.now column from self.now.k p) }
    {
        (from..self.k).find(|i| self.symbol(*i, column) != 0)
    }

    // The first column in which a row is not 0.
    pub(crate) fn leading_column(&self, i: usize) -> Option<usize>
        requires { i < self.now.k }
        ensures value { MatchOption result (is_zero (row_at self.now.n self.now.codes.now i) ≡ true) (λ c. (c < self.now.n) × (0 < symbol_at self.now.n self.now.codes.now i c)) }
    {
        (0..self.n).find(|c| self.symbol(i, *c) != 0)
    }
}
