// What holds of every linear code and every search for its least distance: each function carries one theorem in its contract.
#![tactic(auto)]

ghost use Rattle.std.specs.Prelude.{ℕ, suc, List};
ghost use Rattle.theory.specs.Meanings.{FieldMeaning, FieldLaws, read_below};
ghost use Rattle.theory.specs.Codes.{Exactly};
ghost use Rattle.theory.specs.Visits.{choices, Choice};
ghost use Rattle.theory.specs.Standings.{LinearCode, bound};
ghost use Rattle.theory.specs.Promises.{BoundsRest, Sound};
ghost use Rattle.theory.specs.Facts.{Accepted};
ghost use Rattle.theory.specs.Calls.{SearchCall, run, start, CountsWhatItVisits};
ghost use Rattle.theory.specs.Worked.{code74, WorkedFigures};
ghost use Rattle.theory.specs.Theorems.{CodewordsOnce, SystematicForms, NewPositionsDisjoint, LevelsMeetOnce, OneLeads, IndependentRows, AnswersAlike, EqualFields, EqualWeights};

// The promise: for every accepted code, after every list of calls, what a search then answers is true of the code.
pub fn promise_stands()
    ensures { (c : LinearCode) (negative inverse : ℕ → ℕ) → Accepted c negative inverse → (slots : ℕ) (calls : List SearchCall) → Sound c (run c (start c slots) calls) }
{}

// Of the promise, the bound: after every list of calls a codeword that is not yet counted weighs at least the bound.
pub fn bound_stands()
    ensures { (c : LinearCode) (negative inverse : ℕ → ℕ) → Accepted c negative inverse → (slots : ℕ) (calls : List SearchCall) → BoundsRest c (run c (start c slots) calls).standing (bound c (run c (start c slots) calls).standing) }
{}

// Over every run the line of a nonzero codeword was counted exactly once by the visits made if the codeword is counted, and else never.
pub fn counts_what_it_visits()
    ensures { (c : LinearCode) (negative inverse : ℕ → ℕ) → Accepted c negative inverse → CountsWhatItVisits c }
{}

// The list that is counted has the codewords of the code only, and each exactly once.
pub fn codewords_once()
    ensures { (c : LinearCode) (negative inverse : ℕ → ℕ) → Accepted c negative inverse → CodewordsOnce c }
{}

// Each form of an accepted code generates it in systematic form, and its rank counts the positions that no earlier form has.
pub fn forms_are_systematic()
    ensures { (c : LinearCode) (negative inverse : ℕ → ℕ) → Accepted c negative inverse → SystematicForms c }
{}

// A new position of a form stands in no earlier form, no position is new in two forms, and each rank is the number of new positions.
pub fn new_positions_disjoint()
    ensures { (c : LinearCode) (negative inverse : ℕ → ℕ) → Accepted c negative inverse → NewPositionsDisjoint c }
{}

// R(k, t) holds every choice of t rows out of k, each exactly once, and nothing else.
pub fn choices_once()
    ensures { (k t : ℕ) → Exactly (Choice k t) (choices k t) }
{}

// Level t of a form visits codewords of message weight t only, and meets each line of that message weight exactly once.
pub fn levels_meet_once()
    ensures { (c : LinearCode) (negative inverse : ℕ → ℕ) → Accepted c negative inverse → LevelsMeetOnce c }
{}

// Rows are independent exactly if none is a sum of multiples of the rows before it, the first row if it is not zero.
pub fn independent_rows()
    ensures { (f : FieldMeaning) (negative inverse : ℕ → ℕ) → FieldLaws f negative inverse → IndependentRows f }
{}

// Each line over a field has exactly one leader.
pub fn one_leads()
    ensures { (f : FieldMeaning) (negative inverse : ℕ → ℕ) → FieldLaws f negative inverse → OneLeads f }
{}

// Two searches of equal codes at equal levels, none open, answer every call alike, and a raise leaves them in equal standings.
pub fn answers_alike()
    ensures { AnswersAlike }
{}

// Fields, and symbol weights, that agree below their orders have equal records.
pub fn equal_meanings()
    ensures { EqualFields × EqualWeights }
{}

// There is something to promise: the binary [7, 4] code is accepted, with the laws of its field and its weight.
pub fn code74_accepted()
    ensures { Accepted code74 (read_below 2) (read_below 2) }
{}

// The worked figures of two small codes, as the definitions compute them.
pub fn worked_figures()
    ensures { WorkedFigures }
{}
