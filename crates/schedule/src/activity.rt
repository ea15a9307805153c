ghost use Rattle.std.specs.Prelude.{◌≡◌};
ghost use Rattle.schedule.specs.Numbers.{activity_numbers, activity_in};
ghost use Rattle.schedule.specs.Waiting.{fate_of, is_waiting};

/// A number that is put at a place in the tick of its release.
#[derive(Clone, Copy, Default, PartialEq, Eq, Debug, Drop)]
pub struct Activity {
    pub release: u64,
    pub place: u64,
    pub number: u64,
}

/// What becomes of an activity in a tick.
#[derive(Clone, Copy)]
pub enum Fate {
    Waits,
    Missed,
    Done,
}

impl Activity {
    /// It waits on unless its time is now, and in safe mode it is then missed.
    pub(crate) fn fate(self, time: u64, safe_mode: bool) -> Fate
        ensures { result ≡ fate_of self time safe_mode }
    {
        if self.release != time {
            Fate::Waits
        } else if safe_mode {
            Fate::Missed
        } else {
            Fate::Done
        }
    }
}

impl Fate {
    // Whether it waits on.
    pub(crate) fn waits(self) -> bool
        ensures { result ≡ is_waiting self }
    {
        matches!(self, Fate::Waits)
    }
}

/// The three numbers of an activity, in the order in which frames, texts and memory have them.
impl From<Activity> for [u64; 3] {
    ghost from_gives = { λ activity numbers. numbers ≡ activity_numbers activity };

    fn from(activity: Activity) -> [u64; 3] {
        [activity.release, activity.place, activity.number]
    }
}

/// The activity that three numbers say.
impl From<[u64; 3]> for Activity {
    ghost from_gives = { λ numbers activity. activity ≡ activity_in numbers };

    fn from(numbers: [u64; 3]) -> Activity {
        let [release, place, number] = numbers;
        Activity {
            release,
            place,
            number,
        }
    }
}
