// The numbers of a header.
ghost use Rattle.std.specs.Prelude.{◌≡◌, ◌-◌};
ghost use Rattle.entries.specs.Numbers.{is_number, number_of};

// The most digits of a number.
const MOST_DIGITS: usize = 3;

// Whether a word writes a number: one to three digits, the first not 0.
fn is_number(word: &[u8]) -> bool
    ensures value { result ≡ is_number word.now }
{
    !word.is_empty()
        && word.len() <= MOST_DIGITS
        && word[0] != b'0'
        && word.iter().all(|byte| byte.is_ascii_digit())
}

// The value of a digit.
fn digit(byte: u8) -> usize
    ensures value { result ≡ byte - 48 }
{
    usize::from(byte.saturating_sub(b'0'))
}

// The number that a word writes.
pub(crate) fn number(word: &[u8]) -> Option<usize>
    ensures value { result ≡ number_of word.now }
{
    let value = match *word {
        [a] => digit(a),
        [a, b] => 10 * digit(a) + digit(b),
        [a, b, c] => 100 * digit(a) + 10 * digit(b) + digit(c),
        _ => return None,
    };
    is_number(word).then_some(value)
}
