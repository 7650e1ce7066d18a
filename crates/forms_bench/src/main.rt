// How long it takes to make all forms of matrices of 32 rows of 64 codes.
// What is printed to standard output are the ranks; the times go to standard error.
#![tactic(auto)]

use fields::{Field, Gf4, PrimeField};
use forms::{Form, make_forms};
use std::time::Instant;

// How often the forms are made.
const TURNS: u32 = 100;

// A matrix of 32 rows of 64 codes: unit rows, then numbers that look random.
fn matrix(order: u8) -> [u8; 2048] {
    let mut codes = [0u8; 2048];
    let mut seed: u32 = 1;
    // Row and column follow from the place.
    for (i, code) in codes.iter_mut().enumerate() {
        let row = i / 64;
        let column = i % 64;
        seed = seed.wrapping_mul(1_103_515_245).wrapping_add(12_345);
        if column < 32 {
            *code = u8::from(row == column);
        } else if order > 0 {
            *code = ((seed >> 16) % u32::from(order)) as u8;
        }
    }
    codes
}

// One field, timed.
fn report<F: Field>(rt: &HostRuntime, field: &F) -> anyhow::Result<()> {
    let order = field.order();
    let codes = matrix(order);
    let mut scratch = vec![in rt.alloc(); 0u8; 4096]?;
    let mut forms = [Form::EMPTY; 8];
    let start = Instant::now(rt)?;
    for _ in 0..TURNS {
        make_forms(field, &codes, 32, 64, scratch.as_mut_slice(), &mut forms)?;
    }
    let nanos = start.elapsed(rt)?.as_nanos();
    let micros = nanos / u128::from(TURNS) / 1000;
    print!(rt; "GF({order}) ranks")?;
    for form in forms.iter() {
        let rank = form.rank;
        print!(rt; " {rank}")?;
    }
    println!(rt; "")?;
    Ok(eprintln!(rt; "GF({order}): {micros} microseconds")?)
}

fn main(rt: HostRuntime) -> anyhow::Result<()> {
    for p in [2, 3, 13] {
        report(&rt, &PrimeField::new(p)?)?;
    }
    report(&rt, &Gf4)
}
