//! Flight texts: what a satellite reads, hears and suffers, tick by tick, as lines of words.

#![tactic(auto)]

mod cut;
mod event;
mod fault;
mod flight;
mod law;
mod misread;
mod orders;
mod statement;
mod words;
mod write;

pub use cut::{Pieces, Stop, line_at, piece_len};
pub use event::Event;
pub use fault::{Expected, Fault, Unread};
pub use flight::{check, parse};
pub use law::{WORDS, heard_after};
pub use misread::Misread;
pub use orders::{parse_commands, parse_report, render_commands};
pub use statement::{Statement, Statements, read_line};
pub use write::{Order, list, render};
