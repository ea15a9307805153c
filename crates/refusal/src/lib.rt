//! Why something is turned away: the numbers by which boards, texts and people know it, in one table.

#![tactic(auto)]

ghost use Rattle.std.specs.Prelude.{◌≡◌, Some};
ghost use Rattle.refusal.specs.Turned.{turned, turned_text};

use std::fmt;

/// What a call is lent.
#[derive(Clone, Copy, PartialEq, Eq, Debug, Drop)]
pub enum Lent {
    Memory,
    Readings,
    Frame,
    Report,
}

/// Why something was turned away. It then changed nothing. What later versions refuse gets the next free number, behind
/// these.
#[derive(Clone, Copy, PartialEq, Eq, Debug, Drop)]
pub enum Refusal {
    /// 1: this has another length than it should have.
    Length(Lent),
    /// 2: no lawful flight of fewer than 2^62 ticks leaves this word; it is the lowest such word.
    Unfit { word: usize },
    /// 3: a text that cannot be read; its first line at fault, counted from 0.
    Unreadable { line: usize },
}

impl Refusal {
    /// Which of the reasons it is: the checks run in the order of these numbers.
    pub fn number(self) -> u64
        ensures { result ≡ (turned self).number }
    {
        match self {
            Refusal::Length(_) => 1,
            Refusal::Unfit { .. } => 2,
            Refusal::Unreadable { .. } => 3,
        }
    }

    /// Where: which of what was lent, a word, or a line, each counted from 0.
    pub fn place(self) -> u64
        ensures { result ≡ (turned self).place }
    {
        match self {
            Refusal::Length(Lent::Memory) => 0,
            Refusal::Length(Lent::Readings) => 1,
            Refusal::Length(Lent::Frame) => 2,
            Refusal::Length(Lent::Report) => 3,
            Refusal::Unfit { word } => word as u64,
            Refusal::Unreadable { line } => line as u64,
        }
    }
}

/// The word `refused`, its number and its place.
impl fmt::Display for Refusal {
    ghost output = { λ r. Some (turned_text (turned r)) };

    fn fmt<W: fmt::Write>(&self, f: &mut fmt::Formatter<W>) -> fmt::Result {
        let number = self.number();
        let place = self.place();
        write!(f, "refused {number} {place}")
    }
}
