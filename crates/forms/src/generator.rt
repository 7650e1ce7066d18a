// Matrices that have passed tests: of codes of a field, and with independent rows.
ghost use Rattle.std.specs.Prelude.{◌≤◌};
ghost use Rattle.theory.specs.Facts.{Matrix, Independent};
ghost use Rattle.forms.specs.Shapes.{rows_in};

use crate::matrix::MatrixView;
use fields::Field;

// A matrix of at most 32 rows of at most 64 codes of a field.
#[derive(Drop)]
pub(crate) struct CodeMatrix<'a, F: Field> {
    pub(crate) field: &'a F,
    pub(crate) matrix: MatrixView<'a>,
    ghost narrow: { matrix.n ≤ 64 },
    ghost few: { matrix.k ≤ 32 },
    ghost coded: { Matrix (F.Field.meaning field.now) matrix.n (rows_in matrix) },
}

// A generator matrix: such a matrix with independent rows.
#[derive(Drop)]
pub(crate) struct GeneratorMatrix<'a, F: Field> {
    pub(crate) rows: CodeMatrix<'a, F>,
    ghost independent: { Independent (F.Field.meaning rows.field.now) rows.matrix.n (rows_in rows.matrix) },
}
