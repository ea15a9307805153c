//! The memory map: where the words of the satellite lie, and which words no lawful flight leaves.

#![tactic(auto)]

mod checks;
mod map;
mod read;
mod write;

pub use checks::{fault, faults_right, tidy_right};
pub use map::{WORDS, reads_back};
pub use read::satellite;
pub use write::write_words;
