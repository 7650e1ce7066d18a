// The symbols of a row.
ghost use Rattle.std.specs.Prelude.{◌≡◌};
ghost use Rattle.entries.specs.Symbols.{code_of};

// The code of a symbol: 0 to 9 for the digits, then 10 to 12 for a, b and c.
pub fn symbol_code(symbol: u8) -> Option<u8>
    ensures value { result ≡ code_of symbol }
{
    match symbol as char {
        '0'..='9' => Some(symbol - b'0'),
        'a'..='c' => Some(symbol - b'a' + 10),
        _ => None,
    }
}
