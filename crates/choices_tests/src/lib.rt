// Binomial numbers, the sizes of levels, the order of choices and of visits, as a user would ask for them.
#![tactic(auto)]

#[cfg(test)]
mod order;
#[cfg(test)]
mod sizes;
#[cfg(test)]
mod visits;
