// How long it takes to add a multiple of a row of 64 symbols to another and to weigh the sum, for some fields.
// What is printed to standard output are the weights, so that the work is really done; the times go to standard error.
#![tactic(auto)]

use fields::{Field, Gf4, Hamming, LengthsDiffer, PrimeField, add_multiple, word_weight};
use std::time::Instant;

// How often the row is added.
const TURNS: u32 = 1_000_000;

// Adds a row to a word, symbol by symbol: the sum alone, without the product of `add_multiple`.
fn add_row<F: Field>(field: &F, row: &[u8; 64], word: &mut [u8; 64]) {
    for (a, b) in word.iter_mut().zip(row) {
        *a = field.sum(*a, *b);
    }
}

// A row to begin with.
fn first_row() -> [u8; 64] {
    let mut row = [0u8; 64];
    // The symbols follow from their places.
    for (i, code) in row.iter_mut().enumerate() {
        *code = if i % 3 == 0 { 1 } else { (i & 1) as u8 };
    }
    row
}

// The weights of the word after each sum, added up.
fn run<F: Field>(field: &F, weight: &Hamming, factor: u8) -> Result<u64, LengthsDiffer> {
    let mut row = first_row();
    let mut word = [0u8; 64];
    let mut total: u64 = 0;
    // The number of the turn says which symbol changes after it.
    for turn in 0..TURNS {
        // The two are different measurements.
        if factor == 1 {
            add_row(field, &row, &mut word);
        } else {
            add_multiple(field, factor, &row[..], &mut word[..])?;
        }
        let at = (turn & 63) as usize;
        row[at] = row[at].wrapping_add(1) & 1;
        total = total.saturating_add(u64::from(word_weight(weight, &word[..])));
    }
    Ok(total.saturating_add(u64::from(field.order())))
}

// One field, timed.
fn report<F: Field>(rt: &HostRuntime, field: &F, factor: u8) -> anyhow::Result<()> {
    let order = field.order();
    let weight = Hamming::new(order)?;
    let start = Instant::now(rt)?;
    let total = run(field, &weight, factor)?;
    let nanos = start.elapsed(rt)?.as_nanos();
    let each = nanos / u128::from(TURNS);
    println!(rt; "GF({order}) factor {factor}: {total}")?;
    eprintln!(rt; "GF({order}) factor {factor}: {each} ns")?;
    Ok(())
}

fn main(rt: HostRuntime) -> anyhow::Result<()> {
    for p in [2, 3, 13] {
        let field = PrimeField::new(p)?;
        report(&rt, &field, 1)?;
        if p > 2 {
            report(&rt, &field, p - 1)?;
        }
    }
    report(&rt, &Gf4, 1)?;
    report(&rt, &Gf4, 3)
}
