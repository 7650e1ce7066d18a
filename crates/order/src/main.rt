// Prints the choices of T rows out of K in order, or, with Q, the visits of level T over a field of order Q: `order K T [Q]`.
// Several requests are parted by the word `and`.
#![tactic(auto)]

use choices::{Choice, Level, VisitCounter, binomial};
use std::fmt::Display;
use std::{env, io};
use thiserror::Error;

// Why a request is not answered.
#[derive(Debug, Drop, Error)]
enum OrderError {
    #[error("order K T [Q] takes two or three numbers")]
    Numbers,
    #[error("K goes from 0 to 32, T from 0 to K")]
    Choices,
    #[error("K goes up to 32, T from 1 to K, Q from 2 to 255, with fewer than 2^64 - 1 visits")]
    Level,
    #[error(transparent)]
    Output(#[from] io::Error),
}

// How many words of a request are kept: one more than it may have tells that there are too many, and the others would only take memory.
const KEPT: usize = 4;

fn main(rt: HostRuntime) -> anyhow::Result<()> {
    let mut request = Vec::new(rt.alloc());
    // A loop: `split` would need the words in a second list.
    for word in env::args(&rt)?.skip(1) {
        if word.as_str() == "and" {
            report(&rt, &request)?;
            // An empty line stands between two answers.
            println!(rt; "")?;
            request.clear();
        } else if request.len() < KEPT {
            request.push(word)?;
        }
    }
    report(&rt, &request)
}

// Answers one request, or says why it is refused.
fn report(rt: &HostRuntime, words: &[String]) -> anyhow::Result<()> {
    match answer(rt, words) {
        Ok(()) => Ok(()),
        Err(OrderError::Output(error)) => Err(error.into()),
        Err(refusal) => Ok(println!(rt; "refused: {refusal}")?),
    }
}

// Answers one request: K and T, or K, T and Q.
fn answer(rt: &HostRuntime, words: &[String]) -> Result<(), OrderError> {
    match words {
        [k, t] => print_choices(rt, number(k)?, number(t)?),
        [k, t, q] => print_visits(rt, number(k)?, number(t)?, number(q)?),
        _ => Err(OrderError::Numbers),
    }
}

// The number that a word of a request stands for; a word that is none is refused.
fn number(word: &str) -> Result<usize, OrderError> {
    word.parse().map_err(|_| OrderError::Numbers)
}

// R(k, t), a choice a line.
fn print_choices(rt: &HostRuntime, k: usize, t: usize) -> Result<(), OrderError> {
    let mut choice = Choice::first(k, t).ok_or(OrderError::Choices)?;
    for _ in 0..binomial(k, t).unwrap_or(0) {
        print_numbers(rt, choice.rows())?;
        println!(rt; "")?;
        choice.step();
    }
    Ok(())
}

// The visits of a level, rows and coefficients a line. K, T and Q come from three words, so they become a level here.
fn print_visits(rt: &HostRuntime, k: usize, t: usize, q: usize) -> Result<(), OrderError> {
    let q = u8::try_from(q).map_err(|_| OrderError::Level)?;
    let mut counter = VisitCounter::first(Level { k, t, q }).ok_or(OrderError::Level)?;
    for _ in 0..counter.left() {
        print_numbers(rt, counter.rows())?;
        print!(rt; " with ")?;
        print_numbers(rt, counter.coefficients())?;
        println!(rt; "")?;
        counter.step();
    }
    Ok(())
}

// Numbers parted by single spaces.
fn print_numbers<T: Display>(rt: &HostRuntime, numbers: &[T]) -> io::Result<()> {
    // A space stands before all but the first.
    for (i, number) in numbers.iter().enumerate() {
        if i > 0 {
            print!(rt; " ")?;
        }
        print!(rt; "{number}")?;
    }
    Ok(())
}
