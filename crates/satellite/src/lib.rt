//! The satellite by value: each step of a tick takes it and gives it back.

#![tactic(auto)]

mod state;
mod tick;

pub use state::Satellite;
