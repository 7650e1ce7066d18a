// The rows of an entry: their faults and their codes.
ghost use Rattle.std.specs.Prelude.{◌≡◌, length};
ghost use Rattle.std.specs.Result.{result_err};
ghost use Rattle.entries.specs.Rows.{is_element, symbol_fault, row_fault, row_codes};

use crate::header::Header;
use crate::refusal::TextRefusal;
use crate::symbols::symbol_code;

// Whether a byte is the symbol of an element of the field of order `order`.
fn is_element(symbol: u8, order: u8) -> bool
    ensures value { result ≡ is_element order symbol }
{
    symbol_code(symbol).is_some_and(|code| code < order)
}

// Refuses a row at its first symbol that is no element of the field of order `order`.
fn check_symbols(symbols: &[u8], order: u8, line: usize) -> Result<(), TextRefusal>
    ensures value { result_err result ≡ symbol_fault order line 1 symbols.now }
{
    let wrong = symbols
        .iter()
        .position(|symbol| !is_element(*symbol, order));
    match wrong {
        Some(i) => Err(TextRefusal::BadSymbol {
            line,
            column: i + 1,
        }),
        None => Ok(()),
    }
}

// Refuses a row by its length, then by its symbols.
#[tactic(auto, unfolding(crate::specs::Rows::row_fault))]
pub(crate) fn check_row(symbols: &[u8], header: Header, line: usize) -> Result<(), TextRefusal>
    ensures value { result_err result ≡ row_fault header symbols.now line }
{
    if symbols.len() != header.n {
        return Err(TextRefusal::RowLength { line });
    }
    check_symbols(symbols, header.field.order(), line)
}

// Writes the codes of a row's symbols.
pub(crate) fn decode_row(symbols: &[u8], codes: &mut [u8])
    requires { length codes.old ≡ length symbols.now }
    ensures after { codes.new ≡ row_codes symbols.now }
{
    codes.copy_from_slice(symbols);
    for code in codes.iter_mut() {
        *code = symbol_code(*code).unwrap_or(0);
    }
}
