// What the search asks of a field.
ghost use Rattle.std.specs.Prelude.{◌≡◌, ℕ};
ghost use Rattle.theory.specs.Meanings.{FieldMeaning, FieldLaws};

// A finite field of order q on the codes 0 to q - 1. Its meaning is the order with a sum and a product;
// a code of q or more is read as 0, so that each question has an answer for every byte.
pub trait Field {
    ghost meaning: { Self → FieldMeaning };

    // What it tells as negatives and as inverses.
    ghost negation: { Self → ℕ → ℕ };

    ghost inversion: { Self → ℕ → ℕ };

    fn order(&self) -> u8
        ensures value { result ≡ (meaning self.now).order };

    fn sum(&self, a: u8, b: u8) -> u8
        ensures value { result ≡ (meaning self.now).sum a b };

    fn product(&self, a: u8, b: u8) -> u8
        ensures value { result ≡ (meaning self.now).product a b };

    fn negative(&self, a: u8) -> u8
        ensures value { result ≡ negation self.now a };

    fn inverse(&self, a: u8) -> u8
        ensures value { result ≡ inversion self.now a };

    ghost lawful: { (f : Self) → FieldLaws (meaning f) (negation f) (inversion f) };
}
