// Reads entry texts from standard input and prints the generator forms of each entry's matrix.
#![tactic(auto)]

use anyhow::Context;
use entries::{EntryReader, FieldName, Header, MOST_BYTES, MOST_CODES};
use fields::{Field, Gf4, PrimeField};
use forms::{Form, make_forms};
use std::io;
use std::io::Read;

// Prints the forms of each entry, with an empty line between two entries.
fn main(rt: HostRuntime) -> anyhow::Result<()> {
    let mut text = Vec::new(rt.alloc());
    // One byte past the limit tells that there are too many.
    let _ = rt
        .stdin()
        .take(MOST_BYTES as u64 + 1)
        .read_to_end(&mut text)?;
    let mut codes = [0; MOST_CODES];
    let mut reader = EntryReader::new(&text);
    // A text has fewer entries than bytes. A `loop` would count them by hand, and need a measure.
    for number in 1..=MOST_BYTES {
        match reader.next_entry(&mut codes) {
            Ok(Some(header)) => {
                if number > 1 {
                    println!(rt; "")?;
                }
                with_field(&rt, header, &codes)?
            }
            Ok(None) => break,
            Err(refusal) => return Ok(println!(rt; "{refusal}")?),
        }
    }
    Ok(())
}

// Takes the field that an entry names. Each arm takes another type. The other program that reads entries has the same lines: one function for both would take a closure that is generic in the field.
fn with_field(rt: &HostRuntime, header: Header, codes: &[u8]) -> anyhow::Result<()> {
    match header.field {
        FieldName::Gf4 => print_forms(rt, header, codes, &Gf4),
        prime => print_forms(rt, header, codes, &PrimeField::new(prime.order())?),
    }
}

// Makes and prints the forms of one entry.
fn print_forms<F: Field>(
    rt: &HostRuntime,
    header: Header,
    codes: &[u8],
    field: &F,
) -> anyhow::Result<()> {
    let Header { n, k, .. } = header;
    let matrix = codes
        .get(..k.saturating_mul(n))
        .context("more codes than an entry has")?;
    let mut scratch = vec![in rt.alloc(); 0u8; 2 * MOST_CODES]?;
    let mut forms = [Form::EMPTY; 8];
    match make_forms(field, matrix, k, n, &mut scratch, &mut forms) {
        Ok(count) => {
            // A form is printed with its number.
            for (j, form) in forms.iter().take(count).enumerate() {
                print_form(rt, j, form, k, n)?;
            }
        }
        Err(refusal) => println!(rt; "{refusal}")?,
    }
    Ok(())
}

// A form by its number, rank and positions, then its rows.
fn print_form(rt: &HostRuntime, j: usize, form: &Form, k: usize, n: usize) -> io::Result<()> {
    print!(rt; "form {j} rank {} positions ", form.rank)?;
    // A comma stands before all but the first.
    for (i, p) in form.positions.iter().take(k).enumerate() {
        if i > 0 {
            print!(rt; ",")?;
        }
        print!(rt; "{p}")?;
    }
    println!(rt; "")?;
    for row in form.rows.chunks_exact(n.max(1)).take(k) {
        print_row(rt, row)?;
    }
    Ok(())
}

// A row in symbols.
fn print_row(rt: &HostRuntime, row: &[u8]) -> io::Result<()> {
    for code in row {
        let symbol = char::from_digit(u32::from(*code), 16).unwrap_or('?');
        print!(rt; "{symbol}")?;
    }
    println!(rt; "")
}
