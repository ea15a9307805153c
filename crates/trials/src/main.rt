//! Trials of the on-board program beside a story of its own, which keeps everything once.
//! The first difference is printed and ends the program with status 1.

#![tactic(auto)]

mod frames;
mod hits;
mod random;
mod random_flights;
mod refusals;
mod rich;
mod short_flights;
mod story;
mod trial;

use anyhow::anyhow;
use hits::Hits;
use random_flights::RandomFlights;
use refusals::Refusals;
use short_flights::ShortFlights;
use trial::Trial;

const SEED: u64 = 1;

fn main(rt: HostRuntime) -> anyhow::Result<()> {
    run(&rt, RandomFlights::new(SEED))?;
    run(&rt, ShortFlights::default())?;
    run(&rt, Hits::default())?;
    run(&rt, Refusals::default())
}

// Runs a trial and prints what happened.
fn run<T: Trial>(rt: &HostRuntime, mut trial: T) -> anyhow::Result<()> {
    match trial.run() {
        Ok(()) => {
            println!(rt; "{trial}: no difference")?;
            Ok(())
        }
        Err(difference) => {
            println!(rt; "{trial}: {difference}")?;
            Err(anyhow!("a trial failed"))
        }
    }
}
