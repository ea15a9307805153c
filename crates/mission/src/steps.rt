ghost use Rattle.std.specs.Prelude.{◌≡◌, [], replicate, Some, None};
ghost use Rattle.satellite.specs.State.{at_launch};
ghost use Rattle.layout.specs.Map.{words_of};
ghost use Rattle.flight.specs.Flight.{keeper, Flew};
ghost use Rattle.mission.specs.Steps.{with_reading, with_frame, up_frame, with_hit, Ticks, Steps};

use crate::aloft::{Aloft, Output};
use frame::{Command, Telecommand, encode};
use layout::WORDS;
use onboard::{MEMORY_LENGTH, launch, tick};
use parameters::INSTRUMENTS;
use text::Event;

// Texts know nothing of the memory map, and say how many words can be hit by themselves.
const _: () = prove!(text::WORDS == layout::WORDS as u64);

impl Aloft {
    /// At launch, with nothing said of its first tick yet.
    pub fn launched() -> Aloft
        ensures memory { result.memory ≡ keeper.stored (words_of at_launch) }
        ensures flew { Flew [] result.memory }
        ensures readings { result.readings ≡ replicate 16 0 }
        ensures frame { result.frame ≡ None }
    {
        let mut memory = [0; MEMORY_LENGTH];
        let _ = launch(&mut memory);
        Aloft {
            memory,
            readings: [0; INSTRUMENTS],
            frame: None,
        }
    }

    /// What one event does, and gives if it is a tick.
    pub fn step(&mut self, event: Event) -> Option<Output>
        ensures { Steps self.old event self.new result }
    {
        match event {
            Event::Read { instrument, value } => self.read(instrument, value),
            Event::Up { number, command } => self.up(number, command),
            Event::Frame { numbers } => self.hear(numbers),
            Event::Hit { copy, word, value } => self.hit(copy, word, value),
            Event::Tick => return Some(self.tick()),
        }
        None
    }

    // An instrument reads a value in the next tick.
    fn read(&mut self, instrument: u64, value: u64)
        ensures { self.new ≡
            record self.old { readings = with_reading instrument value self.old.readings } }
    {
        if instrument < 16 && value < 0x1_0000 {
            self.readings[instrument as usize] = value as u16;
        }
    }

    // The frame of a telecommand comes up in the next tick.
    fn up(&mut self, number: u64, command: Command)
        ensures { self.new ≡
            record self.old { frame = with_frame (up_frame number command) self.old.frame } }
    {
        if let Some(frame) = encode(Telecommand { number, command }) {
            self.hear(frame);
        }
    }

    // These numbers come up in the next tick.
    fn hear(&mut self, numbers: [u64; 12])
        ensures { self.new ≡ record self.old { frame = Some numbers } }
    {
        self.frame = Some(numbers);
    }

    // Radiation changes a copy of a word.
    fn hit(&mut self, copy: u64, word: u64, value: u64)
        ensures { self.new ≡
            record self.old { memory = with_hit copy word value self.old.memory } }
    {
        if copy < 3 && word < WORDS as u64 {
            self.memory[copy as usize * WORDS + word as usize] = value;
        }
    }

    // Calls the on-board program with what was said of this tick. Nothing is said of the next yet.
    fn tick(&mut self) -> Output
        ensures { Ticks self.old self.new result }
    {
        let heard = self.frame.take();
        let frame: &[u64] = match &heard {
            Some(numbers) => numbers,
            None => &[],
        };
        let mut report = [0; 8];
        let done = tick(&mut self.memory, &self.readings, frame, &mut report);
        self.readings = [0; INSTRUMENTS];
        Output(done.and(Ok(report)))
    }
}
