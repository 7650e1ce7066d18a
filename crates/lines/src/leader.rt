// The leader of a word's line.
ghost use Rattle.std.specs.Prelude.{◌≡◌, ◌<◌, not, T};
ghost use Rattle.theory.specs.Codes.{times, is_zero};
ghost use Rattle.theory.specs.Standings.{LinearCode};
ghost use Rattle.theory.specs.Promises.{Below};
ghost use Rattle.theory.specs.Calls.{leader as leader_told};
ghost use Rattle.lines.specs.FirstSymbols.{first_nonzero};

use fields::{Field, multiply};

// The first symbol of a word that is not 0, or 0 where there is none.
#[tactic(auto, using(crate::proofs::FirstSymbols::first_found))]
fn first_nonzero(word: &[u8]) -> u8
    ensures value { result ≡ first_nonzero word.now }
{
    word.iter().copied().find(|a| *a != 0).unwrap_or(0)
}

// A word becomes the leader of its line: the multiple whose first nonzero symbol is 1. A zero word stays zero.
pub fn make_leader<F: Field>(field: &F, word: &mut [u8])
    ensures after { word.new ≡ times (F.Field.meaning field.now) (F.Field.inversion field.now (first_nonzero word.old)) word.old }
    ensures leads { (c : LinearCode) → c.field ≡ F.Field.meaning field.now → Below c.field.order word.old → T (not (is_zero word.old)) → word.new ≡ leader_told c word.old }
{
    let inverse = field.inverse(first_nonzero(word));
    multiply(field, inverse, word);
}
