//! The schedule: activities that wait for their time, released in the tick that they name.

#![tactic(auto)]

mod activity;
mod schedule;

pub use activity::Activity;
pub use schedule::{ROOM, Schedule};
