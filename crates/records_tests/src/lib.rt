// Tests of rolls at two kinds of records, of trails there and back, and of texts.
#![tactic(auto)]

#[cfg(test)]
mod rolls;
#[cfg(test)]
mod texts;
#[cfg(test)]
mod trips;
