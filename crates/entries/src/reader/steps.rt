// What the reader of parts does.
ghost use Rattle.std.specs.Prelude.{◌≡◌, ◌+◌, ◌<◌, ◌≤◌, [], ◌∷◌, length, drop, Some, Ok, Err, MatchOption, MatchResult, OnOk, OnErr};
ghost use Rattle.entries.specs.Lines.{lines};
ghost use Rattle.entries.specs.Parts.{row_part, handed, next_part, rows_due};
ghost use Rattle.entries.specs.Readers.{text_of, left, part_answer, After, Numbered, Placed};

use super::{MOST_BYTES, PartReader};
use crate::header::{Header, header_values, header_words};
use crate::part::{Due, Part};
use crate::refusal::TextRefusal;
use crate::rows::check_row;
use crate::words::bytes_before;

// The byte that ends a line.
const BREAK: u8 = b'\n';

// A line of the text without its break, and where the line after it begins.
#[derive(Clone, Copy)]
struct Line<'t> {
    bytes: &'t [u8],
    next: usize,
}

impl<'t> PartReader<'t> {
    // A reader at the start of a text.
    pub fn new(text: &'t [u8]) -> PartReader<'t>
        ensures text { text_of result ≡ text.now }
        ensures lines { left result ≡ lines text.now }
        ensures place { (result.passed ≡ 0) × (result.due ≡ Due.Header) }
    {
        PartReader {
            text,
            at: 0,
            passed: 0,
            due: Due::Header,
        }
    }

    // The next line of the text, if there is one.
    fn next_line(&self) -> Option<Line<'t>>
        ensures value { MatchOption result (left self.now ≡ []) (λ l. (self.now.at < l.next) × (l.next ≤ length (text_of self.now)) × (left self.now ≡ l.bytes.now ∷ lines (drop l.next (text_of self.now)))) }
    {
        let rest = &self.text[self.at..];
        if rest.is_empty() {
            return None;
        }
        let bytes = bytes_before(rest, BREAK);
        let after = self.at + bytes.len() + 1;
        Some(Line {
            bytes,
            next: after.min(self.text.len()),
        })
    }

    // Goes past a line, with what is then due.
    fn pass(&mut self, line: Line<'t>, due: Due)
        requires { (self.old.at < line.next) × (line.next ≤ length (text_of self.old)) × (left self.old ≡ line.bytes.now ∷ lines (drop line.next (text_of self.old))) }
        ensures after { (left self.new ≡ drop 1 (left self.old)) × (self.new.passed ≡ self.old.passed + 1) × (self.new.due ≡ due) }
        ensures text { text_of self.new ≡ text_of self.old }
    {
        *self = PartReader {
            text: self.text,
            at: line.next,
            passed: self.passed + 1,
            due,
        };
    }

    // The header that is due.
    fn header_part(&mut self) -> Result<Option<Part<'t>>, TextRefusal>
        requires { self.old.due ≡ Due.Header }
        ensures value { handed result ≡ next_part Due.Header (left self.old) (self.old.passed + 1) }
        ensures after { After self.old (handed result) self.new }
        ensures place { Numbered (self.old.passed + 1) result }
        ensures text { text_of self.new ≡ text_of self.old }
    {
        let Some(found) = self.next_line() else {
            return Ok(None);
        };
        let line = self.passed + 1;
        let words = header_words(found.bytes).ok_or(TextRefusal::HeaderShape { line })?;
        let values = header_values(&words, line)?;
        self.pass(found, rows_due(values, values.k));
        Ok(Some(Part::Header {
            words,
            values,
            line,
        }))
    }

    // The symbols of the row that is due. Inlined, since the call costs as much as a short row.
    #[inline(always)]
    #[tactic(auto, using(crate::proofs::NextParts::row_missing))]
    pub(crate) fn next_row(&mut self, header: Header, after: usize) -> Result<&'t [u8], TextRefusal>
        requires { self.old.due ≡ Due.Row header after }
        ensures value { MatchResult result (λ s. Ok (Some (row_part s.now)) ≡ next_part (Due.Row header after) (left self.old) (self.old.passed + 1)) (λ f. Err f ≡ next_part (Due.Row header after) (left self.old) (self.old.passed + 1)) }
        ensures after { OnOk result ((left self.new ≡ drop 1 (left self.old)) × (self.new.passed ≡ self.old.passed + 1) × (self.new.due ≡ rows_due header after)) }
        ensures refused { OnErr result (self.new ≡ self.old) }
        ensures text { text_of self.new ≡ text_of self.old }
    {
        let line = self.passed + 1;
        let found = self.next_line().ok_or(TextRefusal::MissingRow { line })?;
        check_row(found.bytes, header, line)?;
        self.pass(found, rows_due(header, after));
        Ok(found.bytes)
    }

    // The row that is due, as a part.
    fn row_part(&mut self, header: Header, after: usize) -> Result<Option<Part<'t>>, TextRefusal>
        requires { self.old.due ≡ Due.Row header after }
        ensures value { handed result ≡ next_part (Due.Row header after) (left self.old) (self.old.passed + 1) }
        ensures after { After self.old (handed result) self.new }
        ensures place { Numbered (self.old.passed + 1) result }
        ensures text { text_of self.new ≡ text_of self.old }
    {
        let line = self.passed + 1;
        let symbols = self.next_row(header, after)?;
        Ok(Some(Part::Row {
            symbols,
            line,
            column: 1,
        }))
    }

    // The end of an entry that is due: the end of the text or an empty line.
    pub(crate) fn ending_part(&mut self) -> Result<Option<Part<'t>>, TextRefusal>
        requires { self.old.due ≡ Due.Ending }
        ensures value { handed result ≡ next_part Due.Ending (left self.old) (self.old.passed + 1) }
        ensures after { After self.old (handed result) self.new }
        ensures place { Numbered (self.old.passed + 1) result }
        ensures text { text_of self.new ≡ text_of self.old }
    {
        let line = self.passed + 1;
        let Some(found) = self.next_line() else {
            self.due = Due::Header;
            return Ok(None);
        };
        if !found.bytes.is_empty() {
            return Err(TextRefusal::NoEntryEnd { line });
        }
        self.pass(found, Due::Header);
        Ok(Some(Part::Gap { line, column: 1 }))
    }

    // The next part of the text, or that there is none, or the first fault; a refusal moves nothing, so that it is given again.
    pub fn next_part(&mut self) -> Result<Option<Part<'t>>, TextRefusal>
        ensures value { handed result ≡ part_answer self.old }
        ensures after { After self.old (handed result) self.new }
        ensures place { Placed (lines (text_of self.old)) (self.old.passed + 1) result }
        ensures text { text_of self.new ≡ text_of self.old }
    {
        if self.text.len() > MOST_BYTES {
            return Err(TextRefusal::TooLong);
        }
        // Each case has a part of its own to read, so it stays a match.
        match self.due {
            Due::Header => self.header_part(),
            Due::Row { header, after } => self.row_part(header, after),
            Due::Ending => self.ending_part(),
        }
    }
}

// So many rows of an entry and then its end.
fn rows_due(header: Header, rows: usize) -> Due
    ensures value { result ≡ rows_due header rows }
{
    if rows == 0 {
        Due::Ending
    } else {
        Due::Row {
            header,
            after: rows - 1,
        }
    }
}
