// Rolls, which keep records in slots of the caller, and trails, which write down what was raised.
#![tactic(auto)]

mod refusal;
mod roll;
mod text;
mod trail;

pub use refusal::{RollRefusal, TrailRefusal};
pub use roll::{MOST_SLOTS, Roll};
pub use text::ParseRecordError;
pub use trail::{TrailRecord, read_and_write, read_trail, write_and_read, write_trail};
