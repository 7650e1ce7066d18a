// How long it takes to step through choices of rows and through the visits of levels.
// What is printed to standard output are sums over the steps, so that the work is really done; the times go to standard error.
#![tactic(auto)]

use anyhow::Context;
use choices::{Choice, Level, VisitCounter};
use std::time::Instant;

// What stands at one place of an order, and steps to the next.
trait Walk {
    // A number of the place.
    fn number(&self) -> u64;

    // The step to the next place; false at the last: the answer of `step`, which it is.
    fn advance(&mut self) -> bool;
}

// A choice shows its lowest row.
impl Walk for Choice {
    fn number(&self) -> u64 {
        self.rows().first().map_or(0, |row| *row as u64)
    }

    fn advance(&mut self) -> bool {
        self.step()
    }
}

// A visit shows its last coefficient.
impl Walk for VisitCounter {
    fn number(&self) -> u64 {
        self.coefficients()
            .last()
            .map_or(0, |code| u64::from(*code))
    }

    fn advance(&mut self) -> bool {
        self.step()
    }
}

// Goes on by up to `most` steps. It tells how many were taken, and the sum of the numbers of the places at which one was tried.
fn run<W: Walk>(walk: &mut W, most: u64) -> (u64, u64) {
    let mut sum: u64 = 0;
    // The number of steps is answered.
    for step in 0..most {
        sum = sum.wrapping_add(walk.number());
        if !walk.advance() {
            return (step, sum);
        }
    }
    (most, sum)
}

// Steps through the places, of which there is one more than steps, and tells the time of each.
fn report<W: Walk>(
    rt: &HostRuntime,
    name: &str,
    places: &str,
    walk: &mut W,
    most: u64,
) -> anyhow::Result<()> {
    let start = Instant::now(rt)?;
    let (steps, sum) = run(walk, most);
    let nanos = start.elapsed(rt)?.as_nanos();
    let count = steps.saturating_add(1);
    println!(rt; "{name}: {count} {places}, {sum}")?;
    let tenths = nanos.saturating_mul(10) / u128::from(count);
    eprintln!(rt; "{name}: {tenths} tenths of a nanosecond a step")?;
    Ok(())
}

// All of R(k, t), timed. What differs from the visits is the walk and its name; the rest is one function.
fn report_choices(rt: &HostRuntime, k: usize, t: usize) -> anyhow::Result<()> {
    let mut choice = Choice::first(k, t).context("no such choices")?;
    let name = format!(in rt.alloc(); "R({k}, {t})")?;
    report(rt, &name, "choices", &mut choice, u64::MAX)
}

// The first ten million steps through the visits of a level, timed.
fn report_visits(rt: &HostRuntime, level: Level) -> anyhow::Result<()> {
    let mut counter = VisitCounter::first(level).context("no such level")?;
    let Level { k, t, q } = level;
    let name = format!(in rt.alloc(); "level {t} of {k} rows over GF({q})")?;
    report(rt, &name, "visits", &mut counter, 10_000_000)
}

fn main(rt: HostRuntime) -> anyhow::Result<()> {
    report_choices(&rt, 32, 8)?;
    report_visits(&rt, Level { k: 32, t: 8, q: 2 })?;
    report_visits(&rt, Level { k: 24, t: 6, q: 3 })?;
    report_visits(&rt, Level { k: 8, t: 5, q: 13 })
}
