//! A flight in which much goes on: rules set and counting, parameters put, and 31 activities waiting.
//! In tick 42 the first two activities are due and a rule acts.
use crate::frames::{Order, framed};
use crate::trial::{Difference, Flight, Inputs};

// The commands that come first.
const FIRST: [Order; 8] = [
    [4, 0, 0, 0, 0, 0, 0, 0, 0, 0],
    [0, 16, 1234, 0, 0, 0, 0, 0, 0, 0],
    [0, 63, 0xffff_ffff, 0, 0, 0, 0, 0, 0, 0],
    [5, 0, 2, 10, 1, 38, 0, 20, 77, 0],
    [5, 1, 2, 10, 0, 3, 0, 21, 78, 0],
    [5, 7, 16, 1000, 1, 0xffff_ffff, 1, 0, 0, 0],
    [5, 15, 63, 8, 0, 2, 1, 64, 79, 0],
    [7, 1, 2, 3, 4, 5, 6, 7, 8, 0],
];

/// How many activities wait in the end.
const ACTIVITIES: u64 = 31;

pub fn rich() -> Result<Flight, Difference> {
    let mut flight = Flight::launched()?;
    for order in FIRST {
        command(&mut flight, order)?;
    }
    for k in 0..ACTIVITIES {
        let release = 42 + k / 2;
        command(&mut flight, [1, release, 16 + k, 500 + k, 0, 0, 0, 0, 0, 0])?;
    }
    Ok(flight)
}

/// The same flight when tick 42 is the next.
pub fn eventful() -> Result<Flight, Difference> {
    let mut flight = rich()?;
    flight.tick(&QUIET)?;
    flight.tick(&QUIET)?;
    Ok(flight)
}

/// No frame comes up.
pub const QUIET: Inputs = Inputs {
    readings: [10; 16],
    frame: None,
};

fn command(flight: &mut Flight, order: Order) -> Result<(), Difference> {
    let frame = framed(flight.story.expected, order);
    flight.tick(&Inputs {
        frame: Some(frame),
        ..QUIET
    })
}
