// The line of a word: the weights of its words, its leader; and the message weight of a word.
#![tactic(auto)]

mod leader;
mod messages;
mod weights;

pub use leader::make_leader;
pub use messages::message_weight;
pub use weights::{LineWeights, line_weights};
