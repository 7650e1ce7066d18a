// Matrices over codes of the caller: k rows of n codes, one row after the other. Two types, as codes are lent to be read or to be changed. That n is at most 64 is asked where a row is held, and is no fact of the types: rows of any length can be swapped and scaled.
ghost use Rattle.std.specs.Prelude.{◌≡◌, ◌*◌, length};

// A matrix that is read.
#[derive(Clone, Copy)]
pub(crate) struct MatrixView<'a> {
    pub(crate) codes: &'a [u8],
    pub(crate) k: usize,
    pub(crate) n: usize,
    ghost whole: { length codes.now ≡ k * n },
}

// A matrix that is changed in place.
#[derive(Drop)]
pub(crate) struct MatrixMut<'a> {
    pub(crate) codes: &'a mut [u8],
    pub(crate) k: usize,
    pub(crate) n: usize,
    ghost whole: { length codes.now ≡ k * n },
}

mod elimination;
mod reading;
mod row_test;
mod steps;
