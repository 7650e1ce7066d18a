// Forms, dependent rows and elimination steps, as a user would ask for them.
#![tactic(auto)]

#[cfg(test)]
mod making;
#[cfg(test)]
mod steps;
