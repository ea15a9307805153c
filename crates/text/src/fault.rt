//! Why a text is not read.
ghost use Rattle.std.specs.Prelude.{◌≡◌, Some};
ghost use Rattle.text.specs.declared.fault.Fault.TheVariants.{Memory};
ghost use Rattle.text.specs.declared.fault.Unread.TheVariants as unread;
ghost use Rattle.text.specs.Phrase.{phrase, refusal_of};
ghost use Rattle.text.specs.Text.{fault_at};

use crate::law::WORDS;
use refusal::Refusal;
use std::alloc::{AllocError, AllocFailed};
use std::fmt;

// What people are told that a command is.
const COMMAND: &str =
    "`put A B`, `later A B C`, `forget`, `sleep`, `wake` or `rule A B C D E F G H`, \
    each number below 4294967296, D and F 0 or 1";

/// What a line should have been.
#[derive(Clone, Copy, Debug, Drop)]
pub enum Expected {
    /// An event at all.
    Event,
    Read,
    Up,
    Frame,
    Hit,
    Tick,
    /// A command alone, in a text of commands.
    Command,
    /// A tick before this line: a frame has already come up since the last one.
    TickFirst,
}

#[derive(Clone, Copy, Debug, Drop)]
pub enum Fault {
    /// The first line at fault, counted from 0.
    Unreadable { line: usize, expected: Expected },
    /// There is no memory left.
    Memory,
}

impl Fault {
    /// The refusal by which programs know it; want of memory is none.
    pub fn refusal(self) -> Option<Refusal>
        ensures { result ≡ refusal_of self }
    {
        match self {
            Fault::Unreadable { line, .. } => Some(Refusal::Unreadable { line }),
            Fault::Memory => None,
        }
    }
}

/// Why a line is not read.
#[derive(Clone, Copy, Debug, Drop)]
pub enum Unread {
    /// It should have been something else.
    Expected(Expected),
    /// There is no memory left.
    Memory,
}

impl Unread {
    /// The same of a text, of which it is this line.
    pub fn at(self, line: usize) -> Fault
        ensures { result ≡ fault_at line self }
    {
        match self {
            Unread::Expected(expected) => Fault::Unreadable { line, expected },
            Unread::Memory => Fault::Memory,
        }
    }
}

impl From<Expected> for Unread {
    ghost from_gives = { λ x r. r ≡ unread.Expected x };

    fn from(expected: Expected) -> Unread {
        Unread::Expected(expected)
    }
}

impl From<AllocError> for Unread {
    ghost from_gives = { λ _ r. r ≡ unread.Memory };

    fn from(_e: AllocError) -> Unread {
        Unread::Memory
    }
}

impl fmt::Display for Expected {
    ghost output = { λ x. Some (phrase x) };

    fn fmt<W: fmt::Write>(&self, f: &mut fmt::Formatter<W>) -> fmt::Result {
        match self {
            Expected::Event => write!(f, "`read`, `up`, `frame`, `hit` or `tick`"),
            Expected::Read => write!(f, "`read I V`, I below 16 and V below 65536"),
            Expected::Up => write!(f, "`up N` and {COMMAND}"),
            Expected::Frame => write!(f, "`frame` and twelve numbers below 18446744073709551616"),
            Expected::Hit => write!(
                f,
                "`hit C W V`, C below 3, W below {WORDS} and V below 18446744073709551616"
            ),
            Expected::Tick => write!(f, "`tick` alone"),
            Expected::Command => write!(f, "{COMMAND}"),
            Expected::TickFirst => write!(f, "`tick` before another frame comes up"),
        }
    }
}

impl From<AllocError> for Fault {
    ghost from_gives = { λ _ r. r ≡ Memory };

    fn from(_e: AllocError) -> Fault {
        Fault::Memory
    }
}

impl<T: Drop> From<AllocFailed<T>> for Fault {
    ghost from_gives = { λ _ r. r ≡ Memory };

    fn from(_e: AllocFailed<T>) -> Fault {
        Fault::Memory
    }
}
