//! A satellite in flight beside its story.
use crate::story::{Story, fault};
use onboard::{MEMORY_LENGTH, launch, tick};
use refusal::Refusal;
use std::{array, fmt};

/// How many words memory keeps, each three times.
pub const WORDS: usize = 294;

// A report that nobody wrote yet.
const UNTOUCHED: [u64; 8] = [9; 8];

/// Flights beside their story. What it displays is how often what happened.
pub trait Trial: fmt::Display + Drop {
    /// Flies them all, or until flight and story part.
    fn run(&mut self) -> Result<(), Difference>;
}

/// What a tick is given.
#[derive(Clone, Copy)]
pub struct Inputs {
    pub readings: [u16; 16],
    pub frame: Option<[u64; 12]>,
}

/// A place where a row of numbers is not the story's.
#[derive(Clone, Copy, Drop)]
pub struct Parting {
    place: usize,
    flight: u64,
    story: u64,
}

impl fmt::Display for Parting {
    fn fmt<W: fmt::Write>(&self, f: &mut fmt::Formatter<W>) -> fmt::Result {
        let Parting { flight, story, .. } = self;
        write!(f, "{flight}, not {story}")
    }
}

/// Where flight and story part.
#[derive(Clone, Copy, Drop)]
pub enum Difference {
    Launch,
    Refused(Refusal),
    NotRefused(Refusal),
    Report(Parting),
    Memory(Parting),
    /// What was lent has changed, though the call was refused.
    Changed(Parting),
}

/// It should not have been refused.
impl From<Refusal> for Difference {
    fn from(refusal: Refusal) -> Difference {
        Difference::Refused(refusal)
    }
}

impl fmt::Display for Difference {
    fn fmt<W: fmt::Write>(&self, f: &mut fmt::Formatter<W>) -> fmt::Result {
        match *self {
            Difference::Launch => write!(f, "it was not launched"),
            Difference::Refused(refusal) => write!(f, "it was {refusal}"),
            Difference::NotRefused(refusal) => write!(f, "it was not {refusal}"),
            Difference::Report(parting) => {
                let place = parting.place;
                write!(f, "number {place} of the report is {parting}")
            }
            Difference::Memory(parting) => {
                let place = parting.place;
                write!(f, "number {place} of memory is {parting}")
            }
            Difference::Changed(Parting { place, .. }) => {
                write!(f, "number {place} of what was lent has changed")
            }
        }
    }
}

#[derive(Clone, Copy)]
pub struct Flight {
    memory: [u64; MEMORY_LENGTH],
    pub story: Story,
}

impl Flight {
    pub fn launched() -> Result<Flight, Difference> {
        let mut memory = [7; MEMORY_LENGTH];
        launch(&mut memory).map_err(|_| Difference::Launch)?;
        let story = Story::at_launch();
        same_memory(&memory, &story.words())?;
        Ok(Flight { memory, story })
    }

    /// All of memory.
    pub fn memory(&self) -> &[u64; MEMORY_LENGTH] {
        &self.memory
    }

    /// A word, as its first copy has it.
    pub fn word(&self, word: usize) -> u64 {
        self.memory[word % WORDS]
    }

    /// Copy `copy` of a word becomes another number.
    pub fn hit(&mut self, copy: usize, word: usize, number: u64) {
        self.memory[copy % 3 * WORDS + word % WORDS] = number;
    }

    /// All copies of a word become another number.
    pub fn overwrite(&mut self, word: usize, number: u64) {
        for copy in 0..3 {
            self.hit(copy, word, number);
        }
    }

    /// A tick of the satellite and of the story, which then agree in the report and in all of memory.
    pub fn tick(&mut self, inputs: &Inputs) -> Result<(), Difference> {
        let mut report = [0; 8];
        call(&mut self.memory, inputs, &mut report)?;
        self.story.tick(&inputs.readings, inputs.frame.as_ref());
        same(&report, &self.story.report()).map_err(Difference::Report)?;
        same_memory(&self.memory, &self.story.words())
    }
}

/// A tick from any memory: refused at the lowest word at fault, where there is one, and nothing is changed;
/// else it goes on from what the copies of each word vote. Whether it was refused.
pub fn tick_anywhere(memory: &[u64; MEMORY_LENGTH], inputs: &Inputs) -> Result<bool, Difference> {
    let words = voted(memory);
    let Some(word) = fault(&words) else {
        let mut flight = Flight {
            memory: *memory,
            story: Story::of(&words),
        };
        flight.tick(inputs)?;
        return Ok(false);
    };
    let mut after = *memory;
    let mut report = UNTOUCHED;
    let done = call(&mut after, inputs, &mut report);
    refused_for(done, Refusal::Unfit { word })?;
    unchanged(&after, memory)?;
    unchanged(&report, &UNTOUCHED)?;
    Ok(true)
}

// Of each word what two of its copies say, or the first.
fn voted(memory: &[u64; MEMORY_LENGTH]) -> [u64; 294] {
    array::from_fn(|k| {
        let [first, second, third] = [memory[k], memory[WORDS + k], memory[2 * WORDS + k]];
        if second == third { second } else { first }
    })
}

/// Calls the on-board program.
pub fn call(
    memory: &mut [u64; MEMORY_LENGTH],
    inputs: &Inputs,
    report: &mut [u64; 8],
) -> Result<(), Refusal> {
    let frame: &[u64] = match &inputs.frame {
        Some(frame) => frame,
        None => &[],
    };
    tick(memory, &inputs.readings, frame, report)
}

/// A call was refused, and for this.
pub fn refused_for(done: Result<(), Refusal>, wanted: Refusal) -> Result<(), Difference> {
    match done {
        Err(refusal) if refusal == wanted => Ok(()),
        Err(refusal) => Err(Difference::Refused(refusal)),
        Ok(()) => Err(Difference::NotRefused(wanted)),
    }
}

/// Nothing of what was lent has changed.
pub fn unchanged<const N: usize>(after: &[u64; N], before: &[u64; N]) -> Result<(), Difference> {
    same(after, before).map_err(Difference::Changed)
}

// All three copies of every word are what the story has.
fn same_memory(memory: &[u64; MEMORY_LENGTH], words: &[u64; 294]) -> Result<(), Difference> {
    let mut story = [0; MEMORY_LENGTH];
    let (copies, _) = story.as_chunks_mut();
    for copy in copies {
        *copy = *words;
    }
    same(memory, &story).map_err(Difference::Memory)
}

// Each number is the story's, or the first one that is not.
fn same<const N: usize>(flight: &[u64; N], story: &[u64; N]) -> Result<(), Parting> {
    match flight
        .iter()
        .zip(story)
        .position(|(flight, story)| flight != story)
    {
        Some(place) => Err(Parting {
            place,
            flight: flight[place],
            story: story[place],
        }),
        None => Ok(()),
    }
}
