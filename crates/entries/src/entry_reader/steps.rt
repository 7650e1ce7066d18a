// What the reader of entries does.
ghost use Rattle.std.specs.Prelude.{◌≡◌, ◌+◌, ◌*◌, ◌≤◌, min, true, [], length, take, drop, Some, None, MatchResult, OnOk};
ghost use Rattle.entries.specs.Lines.{lines};
ghost use Rattle.entries.specs.Headers.{header_reading};
ghost use Rattle.entries.specs.Parts.{rows_due, header_due};
ghost use Rattle.entries.specs.Readers.{text_of, left};
ghost use Rattle.entries.specs.Entries.{end_fault};
ghost use Rattle.entries.specs.HeaderReads.{HeaderRead, HeaderPassed};
ghost use Rattle.entries.specs.RowReads.{RowsRead};
ghost use Rattle.entries.specs.EntryReaders.{text_in, lines_left, lines_read, entry_answer, EntryAfter, codes_after, ReadAs, HandsOut};
ghost use Rattle.entries.specs.Written.{Lined};

use super::{EntryReader, MOST_CODES};
use crate::header::Header;
use crate::part::Due;
use crate::reader::PartReader;
use crate::refusal::TextRefusal;
use crate::rows::decode_row;

// Reads the rows that are due after a header, and writes their codes in row order.
#[tactic(auto, using(crate::proofs::RowSteps::row_fails))]
fn read_rows(
    parts: &mut PartReader<'_>,
    header: Header,
    codes: &mut [u8],
) -> Result<(), TextRefusal>
    requires { (parts.old.due ≡ rows_due header header.k) × (header.k ≤ 32) × (header.n ≤ 64) × (length codes.old ≡ 2048) }
    ensures value { RowsRead parts.old header result parts.new codes.new }
    ensures after { OnOk result ((left parts.new ≡ drop header.k (left parts.old)) × (parts.new.passed ≡ parts.old.passed + header.k) × (parts.new.due ≡ rows_due header 0)) }
    ensures text { text_of parts.new ≡ text_of parts.old }
{
    // Not by `chunks_exact_mut`: what a loop over it writes is not known to the check.
    for row in 0..header.k {
        let symbols = parts.next_row(header, header.k - 1 - row)?;
        let from = row * header.n;
        decode_row(symbols, &mut codes[from..from + header.n]);
    }
    Ok(())
}

// Reads the header that is due, or finds the end of the text.
#[tactic(auto, using(crate::proofs::EntrySteps::header_refused))]
fn read_header(parts: &mut PartReader<'_>) -> Result<Option<Header>, TextRefusal>
    requires { header_due parts.old.due ≡ true }
    ensures value { HeaderRead parts.old result }
    ensures after { HeaderPassed parts.old result parts.new }
    ensures text { text_of parts.new ≡ text_of parts.old }
{
    Ok(parts.next_part()?.and_then(|part| part.header()))
}

// Finds the end of an entry whose rows are read.
#[tactic(auto, using(crate::proofs::EntrySteps::end_fails, crate::proofs::EntrySteps::ended))]
fn read_end(parts: &mut PartReader<'_>) -> Result<(), TextRefusal>
    requires { parts.old.due ≡ Due.Ending }
    ensures value { MatchResult result (λ _. end_fault (left parts.old) (parts.old.passed + 1) ≡ None) (λ f. end_fault (left parts.old) (parts.old.passed + 1) ≡ Some f) }
    ensures after { OnOk result ((left parts.new ≡ drop 1 (left parts.old)) × (parts.new.passed ≡ parts.old.passed + min 1 (length (left parts.old))) × (header_due parts.new.due ≡ true)) }
    ensures text { text_of parts.new ≡ text_of parts.old }
{
    parts.ending_part()?;
    Ok(())
}

impl<'t> EntryReader<'t> {
    // A reader at the start of a text.
    pub fn new(text: &'t [u8]) -> EntryReader<'t>
        ensures text { text_in result ≡ text.now }
        ensures lines { lines_left result ≡ lines text.now }
        ensures lined { Lined text.now (lines_left result) }
        ensures place { lines_read result ≡ 0 }
        ensures none { ReadAs result [] }
    {
        EntryReader {
            parts: PartReader::new(text),
        }
    }

    // The next entry: what its header says, and its codes in row order at the front of the caller's place; or the end of the text; or the first fault, which is given again.
    #[tactic(auto, using(crate::proofs::WholeEntries::size_read))]
    pub fn next_entry(
        &mut self,
        codes: &mut [u8; MOST_CODES],
    ) -> Result<Option<Header>, TextRefusal>
        ensures value { result ≡ entry_answer self.old }
        ensures after { EntryAfter self.old result self.new }
        ensures codes { codes.new ≡ codes_after result (lines_left self.old) codes.old }
        ensures text { text_in self.new ≡ text_in self.old }
        ensures entries { HandsOut self.old result self.new }
    {
        let mut parts = self.parts;
        let Some(header) = read_header(&mut parts)? else {
            return Ok(None);
        };
        let mut matrix = [0; MOST_CODES];
        read_rows(&mut parts, header, &mut matrix)?;
        read_end(&mut parts)?;
        let size = header.k * header.n;
        codes[..size].copy_from_slice(&matrix[..size]);
        *self = EntryReader { parts };
        Ok(Some(header))
    }
}
