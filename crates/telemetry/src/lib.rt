//! Reports: what the satellite says of itself after each tick.

#![tactic(auto)]

ghost use Rattle.std.specs.Prelude.{◌≡◌, Some};
ghost use Rattle.satellite.specs.Model.{model};
ghost use Rattle.telemetry.specs.Reports.{report_of, numbers_of, reported};

use satellite::Satellite;

/// How many numbers a report has.
pub const LENGTH: usize = 8;

#[derive(Clone, Copy, PartialEq, Eq, Debug, Drop)]
pub struct Report {
    pub time: u64,
    pub expected: u64,
    pub safe_mode: bool,
    pub rejected: u64,
    pub missed: u64,
    /// How many activities wait.
    pub waiting: u64,
    /// What stands at places 0 and 1.
    pub first: u64,
    pub second: u64,
}

/// The report of a satellite.
impl From<&Satellite> for Report {
    ghost from_gives = { λ satellite report. report ≡ report_of (model satellite.now) };

    fn from(satellite: &Satellite) -> Report {
        Report {
            time: satellite.time,
            expected: satellite.expected,
            safe_mode: satellite.safe_mode,
            rejected: satellite.rejected,
            missed: satellite.missed,
            waiting: satellite.schedule.len() as u64,
            first: satellite.parameters.at(0),
            second: satellite.parameters.at(1),
        }
    }
}

impl Report {
    /// Its numbers, in the order in which they go down. No `From`, whose one relation would hide that they are read
    /// back: that has a clause of its own.
    pub fn numbers(self) -> [u64; 8]
        ensures value { result ≡ numbers_of self }
        ensures back { reported result ≡ Some self }
    {
        [
            self.time,
            self.expected,
            u64::from(self.safe_mode),
            self.rejected,
            self.missed,
            self.waiting,
            self.first,
            self.second,
        ]
    }

    /// The report that numbers say: nothing if they are not eight, or if its mark is neither 0 nor 1.
    /// No `TryFrom`, whose error would say nothing more.
    pub fn read(numbers: &[u64]) -> Option<Report>
        ensures { result ≡ reported numbers.now }
    {
        let numbers = <&[u64; LENGTH]>::try_from(numbers).ok()?;
        let [
            time,
            expected,
            mark,
            rejected,
            missed,
            waiting,
            first,
            second,
        ] = *numbers;
        if mark > 1 {
            return None;
        }
        Some(Report {
            time,
            expected,
            safe_mode: mark == 1,
            rejected,
            missed,
            waiting,
            first,
            second,
        })
    }
}
