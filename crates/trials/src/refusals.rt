//! Refusals: lent numbers of other lengths, and memory at fault. Nothing lent changes.
use crate::hits::numbers;
use crate::rich::{QUIET, rich};
use crate::trial::{Difference, Flight, Trial, WORDS, call, refused_for, tick_anywhere, unchanged};
use onboard::{MEMORY_LENGTH, launch, tick};
use refusal::{Lent, Refusal};
use std::fmt;
use std::num::Wrapping;

/// Calls refused for a length, calls refused for a fault, and damage that is no fault.
#[derive(Default, Drop)]
pub struct Refusals {
    lengths: Wrapping<u64>,
    faults: Wrapping<u64>,
    fit: Wrapping<u64>,
}

// How much of each is lent.
#[derive(Clone, Copy)]
struct Lengths {
    memory: usize,
    readings: usize,
    frame: usize,
    report: usize,
}

// One number more than memory has.
const LONGER: usize = MEMORY_LENGTH + 1;

const MEMORIES: [usize; 8] = [
    0,
    1,
    WORDS - 1,
    WORDS,
    2 * WORDS,
    MEMORY_LENGTH - 1,
    MEMORY_LENGTH,
    LONGER,
];

// Words of the rich flight (39 ticks old) that all three copies have otherwise, and which word is then at fault.
const DAMAGE: [(usize, u64, Option<usize>); 30] = [
    // a number that no flight reaches
    (0, 0x4000_0000_0000_0001, Some(0)),
    (4, 0x4000_0000_0000_0000, None),
    (68, 0xffff_ffff_ffff_ffff, Some(68)),
    (68, 0x4000_0000_0000_0000, None),
    (278, 0x4000_0000_0000_0001, Some(278)),
    (293, 0x4000_0000_0000_0001, Some(293)),
    (293, 0x4000_0000_0000_0000, None),
    // more activities than there is room for, or than there are
    (69, 33, Some(69)),
    (69, 32, Some(163)),
    (69, 30, None),
    // an activity whose time has been
    (0, 41, None),
    (0, 42, Some(70)),
    (0, 0x4000_0000_0000_0000, Some(70)),
    (70, 39, Some(70)),
    (70, 40, None),
    (160, 39, Some(160)),
    (163, 1, None),
    // an activity for a place that cannot be put
    (71, 15, Some(71)),
    (71, 16, None),
    (71, 63, None),
    (71, 64, Some(71)),
    // a rule that watches no parameter
    (166, 63, None),
    (166, 64, Some(166)),
    // a rule that puts where it cannot, unless it is off or for safe mode
    (171, 15, Some(171)),
    (171, 64, Some(171)),
    (171, 63, None),
    (183, 1, Some(185)),
    (185, 64, None),
    (275, 0, Some(276)),
    (275, 2, Some(276)),
];

impl Trial for Refusals {
    fn run(&mut self) -> Result<(), Difference> {
        let flight = rich()?;
        self.launches(&flight)?;
        for readings in 0..19 {
            for frame in 0..15 {
                self.ticks(&flight, readings, frame)?;
            }
        }
        for (word, number, at_fault) in DAMAGE {
            self.damage(&flight, word, number, at_fault)?;
        }
        for word in 0..WORDS {
            self.damage_two(&flight, word)?;
        }
        Ok(())
    }
}

impl fmt::Display for Refusals {
    fn fmt<W: fmt::Write>(&self, f: &mut fmt::Formatter<W>) -> fmt::Result {
        let Refusals {
            lengths,
            faults,
            fit,
        } = self;
        write!(
            f,
            "refusals: {lengths} for a length, {faults} for a fault, {fit} damaged and fit"
        )
    }
}

impl Refusals {
    // Launches with each other length.
    fn launches(&mut self, flight: &Flight) -> Result<(), Difference> {
        let before = lengthened(flight.memory());
        for length in 0..=LONGER {
            if length == MEMORY_LENGTH {
                continue;
            }
            let mut memory = before;
            let done = launch(&mut memory[..length]);
            refused_for(done, Refusal::Length(Lent::Memory))?;
            unchanged(&memory, &before)?;
            self.lengths += 1;
        }
        Ok(())
    }

    // Ticks with these lengths of readings and frame.
    fn ticks(&mut self, flight: &Flight, readings: usize, frame: usize) -> Result<(), Difference> {
        for memory in MEMORIES {
            for report in 0..11 {
                let lengths = Lengths {
                    memory,
                    readings,
                    frame,
                    report,
                };
                if let Some(wrong) = lengths.wrong() {
                    lengths.lend(flight, wrong)?;
                    self.lengths += 1;
                }
            }
        }
        Ok(())
    }

    // All copies of a word have another number: refused at the word that is then at fault, if one is.
    fn damage(
        &mut self,
        flight: &Flight,
        word: usize,
        number: u64,
        at_fault: Option<usize>,
    ) -> Result<(), Difference> {
        let mut damaged = *flight;
        damaged.overwrite(word, number);
        self.judge(&damaged)?;
        let mut memory = *damaged.memory();
        let done = call(&mut memory, &QUIET, &mut [9; 8]);
        match at_fault {
            Some(word) => refused_for(done, Refusal::Unfit { word }),
            None => Ok(done?),
        }
    }

    // A word has one of many numbers, and another one its neighbour: what the story says comes of it.
    fn damage_two(&mut self, flight: &Flight, word: usize) -> Result<(), Difference> {
        for (k, number) in numbers(flight.word(word)).iter().enumerate() {
            let mut damaged = *flight;
            damaged.overwrite(word, *number);
            self.judge(&damaged)?;
            let other = word.wrapping_add(4 * k + 1) % WORDS;
            damaged.overwrite(other, numbers(flight.word(other))[k]);
            self.judge(&damaged)?;
        }
        Ok(())
    }

    fn judge(&mut self, damaged: &Flight) -> Result<(), Difference> {
        if tick_anywhere(damaged.memory(), &QUIET)? {
            self.faults += 1;
        } else {
            self.fit += 1;
        }
        Ok(())
    }
}

impl Lengths {
    // Which of them is wrong first.
    fn wrong(self) -> Option<Lent> {
        if self.memory != MEMORY_LENGTH {
            Some(Lent::Memory)
        } else if self.readings != 16 {
            Some(Lent::Readings)
        } else if self.frame != 0 && self.frame != 12 {
            Some(Lent::Frame)
        } else if self.report != 8 {
            Some(Lent::Report)
        } else {
            None
        }
    }

    // A call with these lengths is refused for this one, and leaves all as it was.
    fn lend(self, flight: &Flight, wrong: Lent) -> Result<(), Difference> {
        let before = lengthened(flight.memory());
        let mut memory = before;
        let mut report = [9; 10];
        let done = tick(
            &mut memory[..self.memory.min(LONGER)],
            &[10; 18][..self.readings.min(18)],
            &[0; 14][..self.frame.min(14)],
            &mut report[..self.report.min(10)],
        );
        refused_for(done, Refusal::Length(wrong))?;
        unchanged(&memory, &before)?;
        unchanged(&report, &[9; 10])
    }
}

// Memory with one number more.
fn lengthened(memory: &[u64; MEMORY_LENGTH]) -> [u64; LONGER] {
    let mut longer = [5; LONGER];
    longer[..MEMORY_LENGTH].copy_from_slice(memory);
    longer
}
