// Why a step of an elimination does not fit its matrix.
ghost use Rattle.std.specs.Prelude.{Some};

use std::error::Error;
use std::fmt;

#[derive(Clone, Copy, PartialEq, Eq, Debug)]
pub enum StepRefusal {
    // The codes are no such rows, or there is no such row.
    NoRow,
    // The row is 0 in the column, or there is no such column.
    NoPivot,
    // The rows have more than 64 codes.
    TooWide,
}

impl fmt::Display for StepRefusal {
    ghost use Rattle.forms.specs.MatrixSteps.{step_text};

    ghost output = { λ refusal. Some (step_text refusal) };

    fn fmt<W: fmt::Write>(&self, f: &mut fmt::Formatter<W>) -> fmt::Result {
        f.write_str(match self {
            StepRefusal::NoRow => "no such row",
            StepRefusal::NoPivot => "no pivot in the column",
            StepRefusal::TooWide => "rows of more than 64 codes",
        })
    }
}

impl Error for StepRefusal {}
