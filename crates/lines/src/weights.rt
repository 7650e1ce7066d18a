// The weights of the words of a line.
ghost use Rattle.std.specs.Prelude.{◌≡◌, ◌-◌, ◌<◌, ◌≤◌, length, take};
ghost use Rattle.theory.specs.Codes.{times};
ghost use Rattle.lines.specs.LineWeights.{weighed, Weighs, WeighsLine};

use fields::{Field, SymbolWeight, word_weight};

// The weights of the q - 1 words of a line: the first `count` of them, in the order of the factors 1 to q - 1; and the least.
// The array is as long as the largest field needs: memory is fixed, and the record is `Copy`.
#[derive(Clone, Copy)]
pub struct LineWeights {
    pub weights: [u32; 15],
    pub count: usize,
    pub least: u32,
}

impl LineWeights {
    // The weights that count; all of them, where `count` is past their end.
    pub fn as_slice(&self) -> &[u32]
        ensures value { result.now ≡ take self.now.count self.now.weights }
    {
        self.weights.get(..self.count).unwrap_or(&self.weights)
    }
}

// The weight of a multiple of a word, which stops at the largest number of 32 bits. One function over a closure for this and `word_weight` was tried, and the check proved neither use. Inlined by a hint, since without it some fields take a third longer.
#[inline(always)]
fn multiple_weight<F: Field, W: SymbolWeight>(field: &F, weight: &W, factor: u8, word: &[u8]) -> u32
    ensures value { result ≡ weighed (W.SymbolWeight.meaning weight.now) (times (F.Field.meaning field.now) factor word.now) }
{
    word.iter()
        .map(|a| u32::from(weight.weight(field.product(factor, *a))))
        .fold(0, u32::saturating_add)
}

// The weights of the words of a word's line. They stop at the largest number of 32 bits, which no word of up to 64 symbols comes near.
pub fn line_weights<F: Field, W: SymbolWeight>(field: &F, weight: &W, word: &[u8]) -> LineWeights
    ensures value { Weighs (F.Field.meaning field.now) (W.SymbolWeight.meaning weight.now) word.now result }
    ensures exact { length word.now ≤ 64 → WeighsLine (F.Field.meaning field.now) (W.SymbolWeight.meaning weight.now) word.now result }
    ensures count { (result.count ≡ (F.Field.meaning field.now).order - 1) × (result.count ≤ 15) }
{
    let mut weights = [0; 15];
    let mut least = word_weight(weight, word);
    // The factor is a code, not an index alone.
    for factor in 1..field.order() {
        let next = multiple_weight(field, weight, factor, word);
        weights[usize::from(factor - 1)] = next;
        least = least.min(next);
    }
    LineWeights {
        weights,
        count: usize::from(field.order() - 1),
        least,
    }
}
