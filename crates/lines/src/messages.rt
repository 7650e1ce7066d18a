// The message weight of a word.
ghost use Rattle.std.specs.Prelude.{◌≡◌, not, count_by, ◌==◌, slice_index};

// The loop of `message_weight`: a chain of `filter` and `count` takes four times as long, as each position is a branch there.
fn count_nonzero(positions: &[u8], word: &[u8]) -> usize
    ensures value { result ≡ count_by (λ p. not (slice_index word.now p == 0)) positions.now }
{
    let mut count = 0;
    for p in positions {
        let at = usize::from(*p);
        if at < word.len() && word[at] != 0 {
            count += 1;
        }
    }
    count
}

// The number of positions at which a word is not 0; behind its end it is.
pub fn message_weight(positions: &[u8], word: &[u8]) -> usize
    ensures value { result ≡ count_by (λ p. not (slice_index word.now p == 0)) positions.now }
{
    count_nonzero(positions, word)
}
