// A level of a form: its visits have t of the form's k rows, over a field of order q.
ghost use Rattle.std.specs.Prelude.{◌≡◌};
ghost use Rattle.choices.specs.Sizes.{size_told, TellsVisits, TellsExactly, CountsVisits};

use crate::binomials::binomial;

// Level t of a form with k rows over a field of order q.
#[derive(Clone, Copy, PartialEq, Eq, Debug)]
pub struct Level {
    pub k: usize,
    pub t: usize,
    pub q: u8,
}

impl Level {
    // The number of visits of the level; none beyond 32 rows. It stops at the largest number of 64 bits, which no code within the limits comes near.
    pub fn size(self) -> Option<u64>
        ensures value { result ≡ size_told self.k self.t self.q }
        ensures visits { TellsVisits self.k self.t self.q result }
        ensures exact { TellsExactly self.k self.t self.q result }
        ensures counts { CountsVisits self.k self.t self.q }
    {
        let Level { k, t, q } = self;
        let choices = binomial(k, t)?;
        if t == 0 || t > k {
            return Some(0);
        }
        let lists = u64::from(q.saturating_sub(1)).saturating_pow(t as u32 - 1);
        Some(choices.saturating_mul(lists))
    }
}
