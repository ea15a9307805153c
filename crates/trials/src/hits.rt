//! Hits in a rich flight: in each of the numbers of memory, and in each two copies of a word.
use crate::frames::framed;
use crate::rich::eventful;
use crate::story::LARGEST;
use crate::trial::{Difference, Flight, Inputs, Trial, WORDS, tick_anywhere};
use std::num::Wrapping;
use std::{array, fmt};

/// Each number of memory is hit, and each two copies of each word.
#[derive(Default, Drop)]
pub struct Hits {
    // Ticks with a hit in one copy.
    lawful: Wrapping<u64>,
    // Ticks with hits in two copies of a word, and how many of them were refused.
    unlawful: Wrapping<u64>,
    refused: Wrapping<u64>,
}

impl Trial for Hits {
    fn run(&mut self) -> Result<(), Difference> {
        let flight = eventful()?;
        for word in 0..WORDS {
            for copy in 0..3 {
                self.one(&flight, word, copy)?;
                self.two(&flight, word, [copy, copy + 1])?;
            }
        }
        Ok(())
    }
}

impl fmt::Display for Hits {
    fn fmt<W: fmt::Write>(&self, f: &mut fmt::Formatter<W>) -> fmt::Result {
        let Hits {
            lawful,
            unlawful,
            refused,
        } = self;
        write!(
            f,
            "hits: {lawful} in one copy, {unlawful} in two copies of a word, {refused} of these refused"
        )
    }
}

impl Hits {
    // A hit in one copy changes nothing in the report or in memory after the tick.
    fn one(&mut self, flight: &Flight, word: usize, copy: usize) -> Result<(), Difference> {
        for number in numbers(flight.word(word)) {
            let mut hit = *flight;
            hit.hit(copy, word, number);
            hit.tick(&inputs(flight))?;
            self.lawful += 1;
        }
        Ok(())
    }

    // Hits in two copies, with the same number and with two: a report or a refusal.
    fn two(&mut self, flight: &Flight, word: usize, [a, b]: [usize; 2]) -> Result<(), Difference> {
        let numbers = numbers(flight.word(word));
        for (k, first) in numbers.iter().enumerate() {
            let next = numbers.get(k + 1).unwrap_or(first);
            for second in [first, next] {
                let mut hit = *flight;
                hit.hit(a, word, *first);
                hit.hit(b, word, *second);
                self.unlawful += 1;
                self.refused += u64::from(tick_anywhere(hit.memory(), &inputs(flight))?);
            }
        }
        Ok(())
    }
}

// A put comes up, and the instruments read different numbers.
fn inputs(flight: &Flight) -> Inputs {
    Inputs {
        readings: [3, 1, 10, 7, 0, 65535, 6, 5, 4, 3, 2, 1, 0, 11, 12, 13],
        frame: Some(framed(flight.story.expected, [0, 30, 99, 0, 0, 0, 0, 0, 0, 0])),
    }
}

/// The numbers that a hit makes of a word: each bit turned, its neighbours, and some of their own.
pub fn numbers(kept: u64) -> [u64; 72] {
    let own = [
        0,
        1,
        kept.wrapping_add(1),
        kept.wrapping_sub(1),
        33,
        LARGEST,
        LARGEST + 1,
        u64::MAX,
    ];
    array::from_fn(|k| if k < 64 { kept ^ (1 << k) } else { own[k % 8] })
}
