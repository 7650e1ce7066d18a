// The generator forms of a code, by elimination over any field.
#![tactic(auto)]

mod checks;
mod columns;
mod form;
mod generator;
mod generators;
mod making;
mod matrix;
mod matrix_steps;
mod refusal;
mod step_refusal;

pub use form::Form;
pub use generators::{first_dependent_row, make_form, make_forms};
pub use matrix_steps::{clear_column, scale_row, swap_rows};
pub use refusal::FormsRefusal;
pub use step_refusal::StepRefusal;
