//! Reads and writes a text of commands, one to a line, in the order of their numbers, and reads a
//! report.
ghost use Rattle.std.specs.Prelude.{◌≡◌, ◌≤◌, ◌^◌, true, length, IfOk, string_bytes, MatchResult};
ghost use Rattle.frame.specs.File.{Sendable};
ghost use Rattle.text.specs.Render.{rendered, Only};
ghost use Rattle.text.specs.Table.{command_words, Numbers};
ghost use Rattle.text.specs.Text.{orders, IsLawful, Tells, Fails};
ghost use Rattle.text.specs.Words.{line_words};

use crate::event::{command_of, numbers};
use crate::fault::{Expected, Fault};
use crate::law::commandable;
use crate::statement::{Statement, parse_all};
use crate::words::{Word, words_of};
use crate::write::{Order, lines_of};
use frame::Command;
use std::alloc::{AllocError, Global};

/// The commands of a text, in order; or its first line at fault, counted from 0. If they are 2^32
/// at most, a frame can carry each under its number.
pub fn parse_commands(heap: Global, text: &[u8]) -> Result<Vec<Command>, Fault>
    ensures read { MatchResult result (λ v. Tells orders text.now v.items)
        (Fails orders text.now) }
    ensures sendable { IfOk result (λ v. length v.items ≤ 2 ^ 32 → Sendable v.items) }
{
    parse_all(heap, text)
}

impl Statement for Command {
    ghost language = { orders };

    fn of_words(words: &[Word], _heard: bool) -> Result<Command, Expected> {
        command_of(words)
            .filter(|command| commandable(*command))
            .ok_or(Expected::Command)
    }

    // A text of commands has no ticks.
    fn heard_after(self, heard: bool) -> bool {
        heard
    }
}

/// A text that says the commands, one to a line. If they are lawful, parsing it gives them back.
pub fn render_commands(heap: Global, commands: &[Command]) -> Result<String, AllocError>
    ensures text { IfOk result (λ s. string_bytes s ≡ rendered command_words commands.now) }
    ensures back { IfOk result (λ s. IsLawful orders commands.now →
        Only orders (string_bytes s) commands.now) }
{
    lines_of::<Command, Order>(heap, commands)
}

/// The eight numbers of a line that is a report; nothing if it is another line.
pub fn parse_report(heap: Global, line: &[u8]) -> Result<Option<[u64; 8]>, AllocError>
    ensures { IfOk result (λ o. Numbers 8 (line_words line.now) o) }
{
    let words = words_of(heap, line)?;
    Ok(numbers::<8>(words.as_slice()))
}
