//! All short flights: every history of up to four ticks over a small alphabet of inputs.
use crate::frames::{Order, framed};
use crate::rich::rich;
use crate::story::Story;
use crate::trial::{Difference, Flight, Inputs, Trial, WORDS};
use std::fmt;
use std::num::Wrapping;

// How many ticks a history has at most.
const TICKS: u8 = 4;

const WAKE: Order = [4, 0, 0, 0, 0, 0, 0, 0, 0, 0];

// What a tick is given.
#[derive(Clone, Copy)]
enum Letter {
    // No frame comes up, and the instruments read this.
    Reading(u16),
    // No frame comes up, and this copy of every word is hit.
    Hit(usize),
    // A command with the number that is expected.
    Command(Order),
    // The same of a `later`, so many ticks ahead.
    Later { ahead: u64, place: u64, number: u64 },
    // Frames that are not heeded: too early, doubled, damaged, and with a number that is too large.
    TooEarly,
    Doubled,
    Damaged,
    TooLarge,
}

const ALPHABET: [Letter; 33] = [
    Letter::Reading(9),
    Letter::Reading(10),
    Letter::Reading(11),
    Letter::Hit(0),
    Letter::Hit(1),
    Letter::Hit(2),
    Letter::Command([0, 16, 9, 0, 0, 0, 0, 0, 0, 0]),
    Letter::Command([0, 63, 8, 0, 0, 0, 0, 0, 0, 0]),
    // an instrument, and past the last place: rejected
    Letter::Command([0, 15, 1, 0, 0, 0, 0, 0, 0, 0]),
    Letter::Command([0, 64, 1, 0, 0, 0, 0, 0, 0, 0]),
    Letter::Later {
        ahead: 1,
        place: 16,
        number: 5,
    },
    Letter::Later {
        ahead: 2,
        place: 63,
        number: 6,
    },
    // now, for an instrument, and past the last place: rejected
    Letter::Later {
        ahead: 0,
        place: 16,
        number: 1,
    },
    Letter::Later {
        ahead: 1,
        place: 15,
        number: 1,
    },
    Letter::Later {
        ahead: 1,
        place: 64,
        number: 1,
    },
    Letter::Command([2, 0, 0, 0, 0, 0, 0, 0, 0, 0]),
    Letter::Command([3, 0, 0, 0, 0, 0, 0, 0, 0, 0]),
    Letter::Command(WAKE),
    // at 10 and above for a tick to safe mode; at 10 and below for two ticks 9 at 16; that in turn 3 at 63
    Letter::Command([5, 0, 2, 10, 1, 1, 1, 0, 0, 0]),
    Letter::Command([5, 1, 2, 10, 0, 2, 0, 16, 9, 0]),
    Letter::Command([5, 15, 16, 9, 1, 1, 0, 63, 3, 0]),
    // off
    Letter::Command([5, 0, 63, 0, 1, 0, 0, 16, 0, 0]),
    // no such rule, no such parameter, an instrument, past the last place, a mark that is no mark: rejected
    Letter::Command([5, 16, 2, 10, 1, 1, 1, 0, 0, 0]),
    Letter::Command([5, 0, 64, 10, 1, 1, 1, 0, 0, 0]),
    Letter::Command([5, 0, 2, 10, 1, 1, 0, 15, 0, 0]),
    Letter::Command([5, 0, 2, 10, 1, 1, 0, 64, 0, 0]),
    Letter::Command([5, 0, 2, 10, 1, 1, 2, 0, 0, 0]),
    // of no kind: rejected
    Letter::Command([6, 0, 0, 0, 0, 0, 0, 0, 0, 0]),
    Letter::Command([0xffff_ffff, 16, 1, 0, 0, 0, 0, 0, 0, 0]),
    Letter::TooEarly,
    Letter::Doubled,
    Letter::Damaged,
    Letter::TooLarge,
];

/// Every short history from launch, and from a flight in which one more activity can wait.
#[derive(Default, Drop)]
pub struct ShortFlights {
    histories: Wrapping<u64>,
}

impl Trial for ShortFlights {
    fn run(&mut self) -> Result<(), Difference> {
        self.explore(&Flight::launched()?, TICKS)?;
        self.explore(&rich()?, TICKS)
    }
}

impl fmt::Display for ShortFlights {
    fn fmt<W: fmt::Write>(&self, f: &mut fmt::Formatter<W>) -> fmt::Result {
        let inputs = ALPHABET.len();
        let histories = self.histories;
        write!(
            f,
            "short flights: all of up to {TICKS} ticks over {inputs} inputs, from launch and from a rich flight, {histories} histories"
        )
    }
}

impl ShortFlights {
    // Every history of up to so many ticks, each going on from the one before its last tick.
    fn explore(&mut self, flight: &Flight, left: u8) -> Result<(), Difference> {
        if left == 0 {
            return Ok(());
        }
        for letter in ALPHABET {
            let mut next = *flight;
            letter.step(&mut next)?;
            self.histories += 1;
            self.explore(&next, left - 1)?;
        }
        Ok(())
    }
}

impl Letter {
    fn step(self, flight: &mut Flight) -> Result<(), Difference> {
        let reading = match self {
            Letter::Reading(value) => value,
            _ => 10,
        };
        if let Letter::Hit(copy) = self {
            radiate(flight, copy);
        }
        let frame = self.frame(&flight.story);
        flight.tick(&Inputs {
            readings: [reading; 16],
            frame,
        })
    }

    fn frame(self, story: &Story) -> Option<[u64; 12]> {
        let expected = story.expected;
        Some(match self {
            Letter::Reading(_) | Letter::Hit(_) => return None,
            Letter::Command(order) => framed(expected, order),
            Letter::Later {
                ahead,
                place,
                number,
            } => {
                let release = story.time.wrapping_add(1).wrapping_add(ahead);
                framed(expected, [1, release, place, number, 0, 0, 0, 0, 0, 0])
            }
            Letter::TooEarly => framed(expected.wrapping_add(1), WAKE),
            Letter::Doubled => framed(expected.wrapping_sub(1) & 0xffff_ffff, WAKE),
            Letter::Damaged => {
                let mut frame = framed(expected, WAKE);
                frame[11] ^= 1;
                frame
            }
            Letter::TooLarge => framed(expected, [4, 0x1_0000_0000, 0, 0, 0, 0, 0, 0, 0, 0]),
        })
    }
}

// One copy of every word becomes another number.
fn radiate(flight: &mut Flight, copy: usize) {
    for word in 0..WORDS {
        flight.hit(copy, word, flight.word(word).wrapping_add(1));
    }
}
