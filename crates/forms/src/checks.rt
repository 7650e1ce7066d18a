// What a matrix is refused for. The codes come with k and n, and not as a matrix of known length, since k and n are refused before the length.
ghost use Rattle.std.specs.Prelude.{◌≡◌, ◌*◌, ◌≤◌, length, position, nat_le, Some, None, IfOk, OnOk, MatchResult};
ghost use Rattle.forms.specs.Refusals.{first_no_code, first_dependent_row, matrix_fault, forms_fault, ScratchAfter};

use crate::generator::{CodeMatrix, GeneratorMatrix};
use crate::matrix::{MatrixMut, MatrixView};
use crate::refusal::FormsRefusal;
use fields::Field;

// The place of the first number that is q or more.
fn first_from(codes: &[u8], q: u8) -> Option<usize>
    ensures value { result ≡ position (λ c. nat_le q c) codes.now }
{
    codes.iter().position(|c| *c >= q)
}

// The index of the first number that is no code of a field of order q. The chain above is found to be `position` only where the clause says so; this clause says it of the definition.
fn first_no_code(codes: &[u8], q: u8) -> Option<usize>
    ensures value { result ≡ first_no_code q codes.now }
{
    first_from(codes, q)
}

// The matrix of these codes with all tested but the independence of its rows.
pub(crate) fn check_matrix<'a, F: Field>(
    field: &'a F,
    codes: &'a [u8],
    k: usize,
    n: usize,
    scratch: usize,
) -> Result<CodeMatrix<'a, F>, FormsRefusal>
    ensures value { MatchResult result (λ _. matrix_fault (F.Field.meaning field.now) k n codes.now scratch ≡ None) (λ e. matrix_fault (F.Field.meaning field.now) k n codes.now scratch ≡ Some e) }
    ensures matrix { IfOk result (λ m. (m.field.now ≡ field.now) × (m.matrix.codes.now ≡ codes.now) × (m.matrix.k ≡ k) × (m.matrix.n ≡ n)) }
    ensures room { OnOk result (2 * (k * n) ≤ scratch) }
{
    if !(1..=32).contains(&k) || !(k..=64).contains(&n) {
        return Err(FormsRefusal::Shape);
    }
    if codes.len() != k * n {
        return Err(FormsRefusal::Length);
    }
    if let Some(at) = first_no_code(codes, field.order()) {
        return Err(FormsRefusal::NoCode { at });
    }
    if scratch < 2 * (k * n) {
        return Err(FormsRefusal::Scratch);
    }
    Ok(CodeMatrix {
        field,
        matrix: MatrixView { codes, k, n },
    })
}

impl<'a, F: Field> CodeMatrix<'a, F> {
    // The first dependent row, told by an elimination in scratch.
    pub(crate) fn dependent_row(&self, scratch: &mut [u8]) -> Option<usize>
        requires { 2 * (self.now.matrix.k * self.now.matrix.n) ≤ length scratch.old }
        ensures value { result ≡ first_dependent_row (F.Field.meaning self.now.field.now) self.now.matrix.k self.now.matrix.n self.now.matrix.codes.now }
        ensures scratch { ScratchAfter self.now.matrix.k self.now.matrix.n None scratch.old scratch.new }
    {
        let MatrixView { codes, k, n } = self.matrix;
        let part = &mut scratch[..k * n];
        part.copy_from_slice(codes);
        let mut copy = MatrixMut { codes: part, k, n };
        copy.first_dependent(self.field)
    }
}

// The matrix of these codes with its rows tested too.
pub(crate) fn check_rows<'a, F: Field>(
    field: &'a F,
    codes: &'a [u8],
    k: usize,
    n: usize,
    scratch: &mut [u8],
) -> Result<GeneratorMatrix<'a, F>, FormsRefusal>
    ensures value { MatchResult result (λ _. forms_fault (F.Field.meaning field.now) k n codes.now (length scratch.old) ≡ None) (λ e. forms_fault (F.Field.meaning field.now) k n codes.now (length scratch.old) ≡ Some e) }
    ensures scratch { ScratchAfter k n (matrix_fault (F.Field.meaning field.now) k n codes.now (length scratch.old)) scratch.old scratch.new }
    ensures matrix { IfOk result (λ g. (g.rows.field.now ≡ field.now) × (g.rows.matrix.codes.now ≡ codes.now) × (g.rows.matrix.k ≡ k) × (g.rows.matrix.n ≡ n)) }
{
    let rows = check_matrix(field, codes, k, n, scratch.len())?;
    match rows.dependent_row(scratch) {
        Some(row) => Err(FormsRefusal::DependentRow { row }),
        None => Ok(GeneratorMatrix { rows }),
    }
}
