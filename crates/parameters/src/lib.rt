//! The 64 parameters, by value: 0 to 15 are read from instruments, numbers may be put at 16 to 63.

#![tactic(auto)]

ghost use Rattle.std.specs.Prelude.{◌≡◌, ◌<◌, replicate, slice_index, slice_set};
ghost use Rattle.parameters.specs.Places.{may_put, read_in};

/// How many parameters there are, and how many of them are instruments. A place is a plain number, below 64 where it
/// is used: frames, rules and memory carry any, and to refuse is theirs.
pub const PLACES: usize = 64;

pub const INSTRUMENTS: usize = 16;

#[derive(Clone, Copy)]
pub struct Parameters {
    pub values: [u64; 64],
}

/// Whether a number may be put at a place.
pub fn may_put(place: u64) -> bool
    ensures { result ≡ may_put place }
{
    (16..=63).contains(&place)
}

impl Parameters {
    /// All are 0.
    pub fn at_launch() -> Parameters
        ensures { result.values ≡ replicate 64 0 }
    {
        Parameters {
            values: [0; PLACES],
        }
    }

    /// The first sixteen become what the instruments read.
    #[inline(never)]
    pub fn read(&mut self, readings: &[u16; 16])
        ensures { self.new.values ≡ read_in readings.now self.old.values }
    {
        self.values[..INSTRUMENTS].copy_from_slice(&readings.map(u64::from));
    }

    /// The number stands at the place.
    pub fn put(&mut self, place: u64, number: u64)
        requires { place < 64 }
        ensures { self.new.values ≡ slice_set self.old.values place number }
    {
        let place = place as usize;
        self.values[place] = number;
    }

    /// What stands at the place.
    pub fn at(&self, place: u64) -> u64
        requires { place < 64 }
        ensures { result ≡ slice_index self.now.values place }
    {
        self.values[place as usize]
    }
}
