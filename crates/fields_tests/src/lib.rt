// A field brought from outside, proved against the same trait, and examples of the fields and weights that are shipped.
#![tactic(auto)]

#[cfg(test)]
mod examples;
mod renamed;

pub use renamed::RenamedFive;
