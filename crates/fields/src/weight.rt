// What the search asks of a symbol weight, and the weight of a word.
ghost use Rattle.std.specs.Prelude.{◌≡◌, ◌-◌, ◌^◌, ◌≤◌, min, length};
ghost use Rattle.theory.specs.Meanings.{WeightMeaning, WeightLaws};
ghost use Rattle.theory.specs.Codes.{weigh};

// A weight for each code of a field of order q: 0 for 0, from 1 to the top for the codes below q, 0 for others.
pub trait SymbolWeight {
    ghost meaning: { Self → WeightMeaning };

    fn order(&self) -> u8
        ensures value { result ≡ (meaning self.now).order };

    fn top(&self) -> u8
        ensures value { result ≡ (meaning self.now).top };

    fn weight(&self, a: u8) -> u8
        ensures value { result ≡ (meaning self.now).of a };

    ghost lawful: { (w : Self) → WeightLaws (meaning w) };
}

// The weight of a word: the sum of the weights of its symbols, which stops at the largest number of 32 bits; words of up to 64 symbols never come near it. One function over a closure for this and for the weight of a multiple was tried, and the check proved neither use.
pub fn word_weight<W: SymbolWeight>(weight: &W, word: &[u8]) -> u32
    ensures value { result ≡ min (weigh (W.SymbolWeight.meaning weight.now) word.now) (2 ^ 32 - 1) }
    ensures exact { length word.now ≤ 64 → result ≡ weigh (W.SymbolWeight.meaning weight.now) word.now }
{
    let mut total: u32 = 0;
    for a in word {
        total = total.saturating_add(u32::from(weight.weight(*a)));
    }
    total
}
