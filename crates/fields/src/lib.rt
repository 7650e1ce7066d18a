// Fields and symbol weights: what the search asks of them, and the ones that are shipped.
#![tactic(auto)]

mod field;
mod gf4;
mod hamming;
mod lee;
mod order;
mod prime;
mod primes;
mod refusal;
mod table;
mod weight;
mod words;

pub use field::Field;
pub use gf4::Gf4;
pub use hamming::Hamming;
pub use lee::Lee;
pub use prime::PrimeField;
pub use refusal::FieldRefusal;
pub use table::TableWeight;
pub use weight::{SymbolWeight, word_weight};
pub use words::{LengthsDiffer, add_multiple, multiply};
