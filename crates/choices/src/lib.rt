// The order in which a level visits its words: choices of rows, their coefficients, a counter that goes through both, and the sizes of levels.
#![tactic(auto)]

mod binomials;
mod choice;
mod coefficients;
mod level;
mod steps;
mod turns;
mod visit_counter;

pub use binomials::binomial;
pub use choice::Choice;
pub use coefficients::Coefficients;
pub use level::Level;
pub use visit_counter::VisitCounter;
