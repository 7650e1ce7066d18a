// Entry texts: what stands in them, read part by part and entry by entry, with the first fault at its place.
#![tactic(auto)]

mod entry_reader;
mod header;
mod laws;
mod names;
mod numbers;
mod part;
mod reader;
mod refusal;
mod rows;
mod symbols;
mod words;

pub use entry_reader::{EntryReader, MOST_CODES};
pub use header::{Header, HeaderWords, MOST_ROWS, MOST_SYMBOLS};
pub use laws::written_text_reads_back;
pub use names::{FieldName, UnknownName, WeightName};
pub use part::Part;
pub use reader::{MOST_BYTES, PartReader};
pub use refusal::TextRefusal;
pub use symbols::symbol_code;
pub use words::Word;
