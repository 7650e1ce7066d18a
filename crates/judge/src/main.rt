// Reads entry texts from standard input and prints a line for each entry, and for the first fault.
#![tactic(auto)]

use entries::{EntryReader, FieldName, Header, MOST_BYTES, MOST_CODES, WeightName};
use fields::{Field, Gf4, Hamming, Lee, PrimeField, SymbolWeight};
use std::io;
use std::io::Read;

fn main(rt: HostRuntime) -> anyhow::Result<()> {
    let mut text = Vec::new(rt.alloc());
    // One byte past the limit tells that there are too many.
    let _ = rt
        .stdin()
        .take(MOST_BYTES as u64 + 1)
        .read_to_end(&mut text)?;
    let mut codes = [0; MOST_CODES];
    let mut reader = EntryReader::new(&text);
    // A text has fewer entries than bytes. A `loop` would count them by hand, and need a measure.
    for number in 1..=MOST_BYTES {
        match reader.next_entry(&mut codes) {
            Ok(Some(header)) => with_field(&rt, number, header)?,
            Ok(None) => break,
            Err(refusal) => return Ok(println!(rt; "{refusal}")?),
        }
    }
    Ok(())
}

// Takes the field that an entry names. Each arm takes another type. The other program that reads entries has the same lines: one function for both would take a closure that is generic in the field.
fn with_field(rt: &HostRuntime, number: usize, header: Header) -> anyhow::Result<()> {
    match header.field {
        FieldName::Gf4 => with_weight(rt, number, header, &Gf4),
        prime => with_weight(rt, number, header, &PrimeField::new(prime.order())?),
    }
}

// Takes the symbol weight that an entry names, of the field's order. Each arm takes another type.
fn with_weight<F: Field>(
    rt: &HostRuntime,
    number: usize,
    header: Header,
    field: &F,
) -> anyhow::Result<()> {
    let order = field.order();
    match header.weight {
        WeightName::Hamming => print_entry(rt, number, header, field, &Hamming::new(order)?)?,
        WeightName::Lee => print_entry(rt, number, header, field, &Lee::new(order)?)?,
    }
    Ok(())
}

// The line of an entry, with the order of the field taken and the word of the weight.
fn print_entry<F: Field, W: SymbolWeight>(
    rt: &HostRuntime,
    number: usize,
    header: Header,
    field: &F,
    weight: &W,
) -> io::Result<()> {
    let Header {
        n,
        k,
        claim,
        weight: word,
        ..
    } = header;
    let order = field.order().min(weight.order());
    println!(rt; "entry {number} read: n {n} k {k} claim {claim} GF({order}) {word}")
}
