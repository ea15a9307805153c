//! Random flights: commands lawful and not, frames lost, doubled, delayed and damaged, and hits in one copy of each word at most.
use crate::frames::{Order, framed};
use crate::random::Random;
use crate::story::{Story, check_of};
use crate::trial::{Difference, Flight, Inputs, Trial, WORDS};
use std::num::Wrapping;
use std::{array, fmt};

const FLIGHTS: u64 = 2000;

const TICKS: u64 = 200;

/// All that happened in them.
#[derive(Drop)]
pub struct RandomFlights {
    seed: u64,
    random: Random,
    flights: Wrapping<u64>,
    // The tick that the last flight is in; none at its end.
    tick: Option<u64>,
    frames: Frames,
    // Commands done, by kind.
    done: [Wrapping<u64>; 6],
    rejected: Wrapping<u64>,
    missed: Wrapping<u64>,
    // How often a rule acted.
    acted: Wrapping<u64>,
    // Ticks after which 32 activities wait.
    full: Wrapping<u64>,
    hits: Wrapping<u64>,
}

// What became of the frames that the ground sent.
#[derive(Clone, Copy, Default, Drop)]
struct Frames {
    whole: Wrapping<u64>,
    lost: Wrapping<u64>,
    doubled: Wrapping<u64>,
    delayed: Wrapping<u64>,
    damaged: Wrapping<u64>,
}

// What a flight is commanded mostly, and how far ahead. A kind is a number here and in `order`: a frame may have any.
#[derive(Clone, Copy)]
struct Plan {
    kind: u64,
    often: u64,
    ahead: u64,
}

// Frames on the way: the last one that came up, and one that is held back.
#[derive(Clone, Copy, Default)]
struct Uplink {
    last: Option<[u64; 12]>,
    held: Option<[u64; 12]>,
}

impl Trial for RandomFlights {
    fn run(&mut self) -> Result<(), Difference> {
        for _ in 0..FLIGHTS {
            self.flights += 1;
            let story = self.fly()?;
            self.rejected += story.rejected;
            self.missed += story.missed;
        }
        Ok(())
    }
}

impl fmt::Display for RandomFlights {
    fn fmt<W: fmt::Write>(&self, f: &mut fmt::Formatter<W>) -> fmt::Result {
        let RandomFlights {
            seed,
            flights,
            tick,
            frames,
            done,
            rejected,
            missed,
            acted,
            full,
            hits,
            ..
        } = self;
        write!(
            f,
            "random flights: seed {seed}, {flights} flights of {TICKS} ticks, {hits} hits; {frames}; "
        )?;
        let [put, later, forget, sleep, wake, rule] = done;
        write!(
            f,
            "obeyed: {put} put, {later} later, {forget} forget, {sleep} sleep, {wake} wake, {rule} rule; "
        )?;
        write!(
            f,
            "{rejected} rejected, {missed} missed, rules acted {acted} times, {full} ticks with 32 waiting"
        )?;
        match tick {
            Some(tick) => write!(f, "; in tick {tick} of the last flight"),
            None => Ok(()),
        }
    }
}

impl fmt::Display for Frames {
    fn fmt<W: fmt::Write>(&self, f: &mut fmt::Formatter<W>) -> fmt::Result {
        let Frames {
            whole,
            lost,
            doubled,
            delayed,
            damaged,
        } = self;
        write!(
            f,
            "frames: {whole} whole, {lost} lost, {doubled} doubled, {delayed} delayed, {damaged} damaged"
        )
    }
}

impl RandomFlights {
    pub fn new(seed: u64) -> RandomFlights {
        RandomFlights {
            seed,
            random: Random::new(seed),
            flights: Wrapping(0),
            tick: None,
            frames: Frames::default(),
            done: [Wrapping(0); 6],
            rejected: Wrapping(0),
            missed: Wrapping(0),
            acted: Wrapping(0),
            full: Wrapping(0),
            hits: Wrapping(0),
        }
    }

    fn fly(&mut self) -> Result<Story, Difference> {
        let mut flight = Flight::launched()?;
        let plan = Plan::any(&mut self.random);
        let mut uplink = Uplink::default();
        for _ in 0..TICKS {
            let before = flight.story;
            self.tick = Some(before.time.wrapping_add(1));
            let sent = plan.sent(&mut self.random, &before);
            let frame = uplink.pass(&mut self.random, sent, &mut self.frames);
            let readings = self.random.readings();
            self.radiate(&mut flight);
            flight.tick(&Inputs { readings, frame })?;
            self.count(&before, &flight.story, frame);
        }
        self.tick = None;
        Ok(flight.story)
    }

    fn count(&mut self, before: &Story, after: &Story, frame: Option<[u64; 12]>) {
        let is_done = after.expected != before.expected && after.rejected == before.rejected;
        if let Some(numbers) = frame
            && is_done
            && let Some(done) = self.done.get_mut(numbers[1] as usize)
        {
            *done += 1;
        }
        if after.waiting() == 32 {
            self.full += 1;
        }
        self.acted += after.watches.iter().filter(|watch| watch.acts()).count() as u64;
    }

    // Radiation: nothing, a few words, or every word, in one copy of each at most.
    fn radiate(&mut self, flight: &mut Flight) {
        let once_in = match self.random.below(4) {
            0 => return,
            1 => 1,
            2 => 2,
            _ => 64,
        };
        for word in 0..WORDS {
            if self.random.once_in(once_in) {
                self.random.strike(flight, word);
                self.hits += 1;
            }
        }
    }
}

impl Uplink {
    // What comes up when a frame is sent: it or nothing, a frame from before once more, or a damaged one.
    fn pass(
        &mut self,
        random: &mut Random,
        sent: [u64; 12],
        frames: &mut Frames,
    ) -> Option<[u64; 12]> {
        let heard = match random.below(16) {
            0 => {
                frames.lost += 1;
                None
            }
            1 => {
                frames.doubled += 1;
                self.last
            }
            2 => {
                frames.delayed += 1;
                self.held.replace(sent)
            }
            3 => {
                frames.damaged += 1;
                Some(random.damaged(sent))
            }
            _ => {
                frames.whole += 1;
                Some(sent)
            }
        };
        self.last = heard;
        heard
    }
}

impl Plan {
    fn any(random: &mut Random) -> Plan {
        Plan {
            kind: random.below(6),
            often: 5 * random.below(4),
            ahead: match random.below(3) {
                0 => 3,
                1 => 12,
                _ => 300,
            },
        }
    }

    // A frame of the command expected now, or of one a little before or after it.
    fn sent(self, random: &mut Random, story: &Story) -> [u64; 12] {
        let number = match random.below(16) {
            0 => story.expected.saturating_sub(1),
            1 => story.expected.wrapping_add(1),
            2 => random.below(0x1_0000_0000),
            _ => story.expected,
        };
        let kind = self.kind(random);
        let release = story.time.wrapping_add(random.below(self.ahead.max(1)));
        framed(number, random.order(kind, release))
    }

    fn kind(self, random: &mut Random) -> u64 {
        if random.below(16) < self.often {
            return self.kind;
        }
        match random.below(16) {
            0 => random.below(0x1_0000_0000),
            1 => 6,
            _ => random.below(6),
        }
    }
}

impl Random {
    // A command of this kind; what is done later is done then.
    fn order(&mut self, kind: u64, release: u64) -> Order {
        match kind {
            0 => [kind, self.place(), self.small(), 0, 0, 0, 0, 0, 0, 0],
            1 => [kind, release, self.place(), self.small(), 0, 0, 0, 0, 0, 0],
            5 => [
                kind,
                self.below(17),
                self.below(66),
                self.small(),
                self.below(3),
                self.below(5),
                self.below(3),
                self.place(),
                self.small(),
                0,
            ],
            _ => [
                kind,
                self.below(0x1_0000_0000),
                self.small(),
                0,
                0,
                0,
                0,
                0,
                0,
                self.small(),
            ],
        }
    }

    fn place(&mut self) -> u64 {
        match self.below(16) {
            0 => self.below(0x1_0000_0000),
            1 => 64,
            2 => 15,
            3 => 16,
            4 => 63,
            _ => 12 + self.below(56),
        }
    }

    // Mostly a small number, so that limits are met often.
    fn small(&mut self) -> u64 {
        match self.below(8) {
            0 => self.below(0x1_0000_0000),
            1 => 0xffff,
            _ => self.below(8),
        }
    }

    fn readings(&mut self) -> [u16; 16] {
        array::from_fn(|_| match self.below(16) {
            0 => (self.next() & 0xffff) as u16,
            1 => 0xffff,
            _ => self.below(8) as u16,
        })
    }

    // One number of the frame is another; half of the time the check is worked out again.
    fn damaged(&mut self, frame: [u64; 12]) -> [u64; 12] {
        let mut damaged = frame;
        let i = self.below(12) as usize;
        damaged[i] = match self.below(3) {
            0 => damaged[i] ^ (1 << self.below(64)),
            1 => damaged[i].wrapping_add(0x1_0000_0000),
            _ => self.next(),
        };
        if self.once_in(2) {
            damaged[11] = check_of(&damaged);
        }
        damaged
    }

    // One copy of a word is hit.
    fn strike(&mut self, flight: &mut Flight, word: usize) {
        let copy = self.below(3) as usize;
        let kept = flight.word(word);
        let number = match self.below(4) {
            0 => kept ^ (1 << self.below(64)),
            1 => kept.wrapping_add(1),
            2 => self.below(8),
            _ => self.next(),
        };
        flight.hit(copy, word, number);
    }
}
