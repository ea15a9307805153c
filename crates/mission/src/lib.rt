//! Flies the events of a flight text through the on-board program.

#![tactic(auto)]

mod aloft;
mod run;
mod steps;
mod whole;

pub use aloft::{Aloft, Output};
pub use run::fly;
pub use whole::{Failure, fly_lines};
