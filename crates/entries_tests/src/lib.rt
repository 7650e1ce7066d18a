// Tests of the entry reader: texts with a fault, texts at the edges of the format, and the parts handed out.
#![tactic(auto)]

#[cfg(test)]
mod edges;
#[cfg(test)]
mod faults;
#[cfg(test)]
mod outcome;
#[cfg(test)]
mod parts;
