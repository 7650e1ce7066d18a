// A visit counter: a place in a level, with the rows and the coefficients of the visit there.
ghost use Rattle.std.specs.Prelude.{◌≡◌, ◌+◌, ◌-◌, ◌<◌, ◌≤◌, true, if◌then◌else◌, length, nat_lt, IfSome};
ghost use Rattle.theory.specs.Visits.{coefficients as coefficient_lists};
ghost use Rattle.choices.specs.Moves.{is_choice};
ghost use Rattle.choices.specs.Places.{listed, StandsAt, Steps};
ghost use Rattle.choices.specs.Choosing.{chosen};
ghost use Rattle.choices.specs.Coefficients.{codes_of};
ghost use Rattle.choices.specs.LevelVisits.{level_visits};
ghost use Rattle.choices.specs.Levels.{visit_of, size_of, visits_of, CounterAt, CounterOr, IsVisit};
ghost use Rattle.choices.specs.Kept.{KeptChoice, KeptCoefficients, KeptVisit};

use crate::choice::Choice;
use crate::coefficients::Coefficients;
use crate::level::Level;
use std::marker::Model;

// Stands at one visit of a level. It is all that has to be kept to go on with the level later.
#[derive(Clone, Copy)]
pub struct VisitCounter {
    choice: Choice,
    coefficients: Coefficients,
    place: u64,
    size: u64,
}

impl Model for VisitCounter {
    ghost use Rattle.std.specs.Prelude.{◌≡◌, true, take};
    ghost use Rattle.choices.specs.Held.{HeldVisit};
    ghost use Rattle.choices.specs.Sizes.{level_size};
    ghost use Rattle.choices.specs.LevelVisits.{is_visit};
    ghost use Rattle.choices.specs.Kept.{KeptChoice, KeptCoefficients};

    ghost Value = { HeldVisit };

    ghost view = { λ v. record { choice = v.choice; coefficients = v.coefficients; place = v.place; size = v.size } };

    ghost inverse = { λ v. record { choice = v.choice; coefficients = v.coefficients; place = v.place; size = v.size } };

    ghost invariant = { λ v. KeptChoice v.choice × KeptCoefficients v.coefficients × (v.choice.t ≡ v.coefficients.t) × (v.size ≡ level_size v.choice.k v.choice.t v.coefficients.q) × (is_visit v.choice.k v.choice.t v.coefficients.q v.place (take v.choice.t v.choice.rows) (take v.coefficients.t v.coefficients.codes) ≡ true) };
}

// The step to the next visit: the next coefficients, or the next choice with the first ones; false, and nothing changes, at the last. To stand at the last is no error, so the answer is a bool.
fn next_visit(choice: &mut Choice, coefficients: &mut Coefficients) -> bool
    requires { choice.old.t ≡ coefficients.old.t }
    ensures value { Steps (level_visits choice.old.k choice.old.t coefficients.old.q) result (chosen choice.old, codes_of coefficients.old) (chosen choice.new, codes_of coefficients.new) }
    ensures same { (choice.new.k ≡ choice.old.k) × (choice.new.t ≡ choice.old.t) × (coefficients.new.q ≡ coefficients.old.q) × (coefficients.new.t ≡ coefficients.old.t) }
    ensures rows { KeptChoice choice.old → KeptChoice choice.new }
    ensures codes { KeptCoefficients coefficients.new }
{
    if coefficients.step() {
        return true;
    }
    if !choice.step() {
        return false;
    }
    coefficients.restart();
    true
}

impl VisitCounter {
    // The counter at the first visit of a level; none where k is above 32, t is not from 1 to k, q is below 2, or the level has 2^64 - 1 visits or more.
    pub fn first(level: Level) -> Option<VisitCounter>
        ensures value { CounterOr level.k level.t level.q 0 result }
        ensures kept { IfSome result KeptVisit }
    {
        let choice = Choice::first(level.k, level.t)?;
        let coefficients = Coefficients::first(level.q, level.t)?;
        let size = level.size()?;
        if size == u64::MAX {
            return None;
        }
        Some(VisitCounter {
            choice,
            coefficients,
            place: 0,
            size,
        })
    }

    // The counter at any visit of the level, which the visits before it are stepped through for; none where there is no such visit.
    pub fn at(level: Level, place: u64) -> Option<VisitCounter>
        ensures value { CounterOr level.k level.t level.q place result }
        ensures kept { IfSome result KeptVisit }
    {
        let mut visit = VisitCounter::first(level)?;
        if place >= visit.left() {
            return None;
        }
        for _ in 0..place {
            if !visit.step() {
                return None;
            }
        }
        Some(visit)
    }

    // The rows of the visit.
    pub fn rows(&self) -> &[usize]
        ensures value { result.now ≡ (visit_of self.now).0 }
        ensures stands { (self.now.choice.k ≤ 32) × (self.now.choice.t ≤ self.now.choice.k) × (is_choice self.now.choice.k self.now.choice.t result.now ≡ true) }
        ensures kept { KeptVisit self.now }
    {
        self.choice.rows()
    }

    // The coefficients of its rows.
    pub fn coefficients(&self) -> &[u8]
        ensures value { result.now ≡ (visit_of self.now).1 }
        ensures stands { (self.now.coefficients.t ≤ 32) × (2 ≤ self.now.coefficients.q) × (listed (coefficient_lists self.now.coefficients.q self.now.coefficients.t) result.now ≡ true) }
        ensures kept { KeptVisit self.now }
    {
        self.coefficients.codes()
    }

    // The number of rows of each visit: the level.
    pub fn level(&self) -> usize
        ensures value { result ≡ self.now.choice.t }
        ensures same { result ≡ self.now.coefficients.t }
        ensures kept { KeptVisit self.now }
    {
        self.choice.size()
    }

    // How many visits of the level come before this one.
    pub fn place(&self) -> u64
        ensures value { result ≡ self.now.place }
        ensures stands { StandsAt (visits_of self.now) result (visit_of self.now) }
        ensures visit { IsVisit self.now.choice.k self.now.choice.t self.now.coefficients.q result (visit_of self.now) }
        ensures kept { KeptVisit self.now }
    {
        self.place
    }

    // How many visits of the level are left, this one counted.
    pub fn left(&self) -> u64
        ensures value { result ≡ size_of self.now - self.now.place }
        ensures some { 0 < result }
        ensures visits { result ≡ length (visits_of self.now) - self.now.place }
        ensures kept { KeptVisit self.now }
    {
        self.size - self.place
    }

    // The step to the next visit; false, and nothing changes, at the last. To stand at the last is no error, so the answer is a bool.
    pub fn step(&mut self) -> bool
        ensures value { result ≡ nat_lt (self.old.place + 1) (size_of self.old) }
        ensures last { result ≡ nat_lt (self.old.place + 1) (length (visits_of self.old)) }
        ensures after { CounterAt self.old.choice.k self.old.choice.t self.old.coefficients.q (self.old.place + (if result then 1 else 0)) self.new }
        ensures kept { KeptVisit self.new }
    {
        self.advance()
    }

    // The step, with its proof: a wrong call of it is refused in `step` by what the clauses say.
    fn advance(&mut self) -> bool
        ensures value { result ≡ nat_lt (self.old.place + 1) (size_of self.old) }
        ensures last { result ≡ nat_lt (self.old.place + 1) (length (visits_of self.old)) }
        ensures after { CounterAt self.old.choice.k self.old.choice.t self.old.coefficients.q (self.old.place + (if result then 1 else 0)) self.new }
        ensures kept { KeptVisit self.new }
    {
        if !next_visit(&mut self.choice, &mut self.coefficients) {
            return false;
        }
        self.place += 1;
        true
    }
}
