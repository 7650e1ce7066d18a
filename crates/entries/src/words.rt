// Words of bytes, and where they stand in a line.
ghost use Rattle.std.specs.Prelude.{◌≡◌, ℕ, ◌+◌, ◌<◌, ◌≤◌, [], ◌∷◌, length, take, drop, IfSome, MatchOption, ◌≢◌, slice_index};
ghost use Rattle.entries.specs.Lines.{words};
ghost use Rattle.entries.specs.WordParts.{words_from};

// The byte between two words.
const SPACE: u8 = b' ';

// A word of a line, as it stands in the text, with its column from 1.
#[derive(Clone, Copy, PartialEq, Eq, Debug)]
pub struct Word<'t> {
    pub bytes: &'t [u8],
    pub column: usize,
}

// The bytes before the first `stop`, or all of them where there is none.
pub(crate) fn bytes_before(bytes: &[u8], stop: u8) -> &[u8]
    ensures part { (length result.now ≤ length bytes.now) × (result.now ≡ take (length result.now) bytes.now) }
    ensures before { (i : ℕ) → i < length result.now → slice_index bytes.now i ≢ stop }
    ensures found { length result.now < length bytes.now → slice_index bytes.now (length result.now) ≡ stop }
{
    let end = bytes.iter().position(|byte| *byte == stop);
    &bytes[..end.unwrap_or(bytes.len())]
}

// The word of a line that begins at `from`.
pub(crate) fn word_at(line: &[u8], from: usize) -> Word<'_>
    requires { from ≤ length line.now }
    ensures place { (result.column ≡ from + 1) × (from + length result.bytes.now ≤ length line.now) }
    ensures part { result.bytes.now ≡ take (length result.bytes.now) (drop from line.now) }
    ensures cut { words (drop from line.now) ≡ result.bytes.now ∷ words_from line.now (result.column + length result.bytes.now) }
{
    Word {
        bytes: bytes_before(&line[from..], SPACE),
        column: from + 1,
    }
}

// The word after another of the same line, if there is one.
pub(crate) fn word_after<'t>(line: &'t [u8], before: Word<'t>) -> Option<Word<'t>>
    requires { before.column + length before.bytes.now ≤ length line.now + 1 }
    ensures place { IfSome result (λ w. (w.column ≡ before.entry.column + length before.entry.bytes.now + 1) × (w.column + length w.bytes.now ≤ length line.now + 1)) }
    ensures cut { MatchOption result (words_from line.now (before.entry.column + length before.entry.bytes.now) ≡ []) (λ w. words_from line.now (before.entry.column + length before.entry.bytes.now) ≡ w.bytes.now ∷ words_from line.now (w.column + length w.bytes.now)) }
{
    let from = before.column + before.bytes.len();
    if from > line.len() {
        return None;
    }
    Some(word_at(line, from))
}
