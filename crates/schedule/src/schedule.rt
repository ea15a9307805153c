ghost use Rattle.std.specs.Prelude.{◌≡◌, ◌<◌, ◌≤◌, true, false, [], ◌∷◌, ◌++◌, length, nat_le};

use crate::activity::{Activity, Fate};
use arrayvec::ArrayVec;
use parameters::Parameters;
use std::alloc::AllocError;

/// How many activities can wait.
pub const ROOM: usize = 32;

/// Up to 32 activities, in the order in which they came, in the satellite itself: nothing on board allocates.
#[derive(Drop)]
pub struct Schedule {
    activities: ArrayVec<Activity, ROOM>,
    ghost few: { length activities.items ≤ 32 },
}

impl Schedule {
    ghost use Rattle.schedule.specs.Waiting.{waiting, fated, is_waiting, is_missed, is_done, put_all, fate_of, NothingDue, SomeDue, Placed};

    /// Nothing waits.
    pub fn empty() -> Schedule
        ensures { waiting result ≡ [] }
    {
        Schedule {
            activities: ArrayVec::new(),
        }
    }

    /// Those that wait.
    pub fn waiting(&self) -> &[Activity]
        ensures all { result.now ≡ waiting self.now }
        ensures few { length result.now ≤ 32 }
    {
        self.activities.as_slice()
    }

    /// How many wait.
    pub fn len(&self) -> usize
        ensures { result ≡ length (waiting self.now) }
    {
        self.activities.len()
    }

    /// Whether no more activity can wait.
    pub fn is_full(&self) -> bool
        ensures { result ≡ nat_le 32 (length (waiting self.now)) }
    {
        self.activities.is_full()
    }

    /// Whether it is the time of an activity.
    pub fn is_due(&self, time: u64) -> bool
        ensures none { result ≡ false → NothingDue time (waiting self.now) }
        ensures some { result ≡ true → SomeDue time (waiting self.now) }
    {
        self.waiting()
            .iter()
            .any(|activity| activity.release == time)
    }

    /// Nothing waits any more.
    pub fn clear(&mut self)
        ensures { waiting self.new ≡ [] }
    {
        self.activities.clear();
    }

    /// One more activity waits, behind the others.
    pub fn add(&mut self, activity: Activity)
        requires { length (waiting self.old) < 32 }
        ensures { waiting self.new ≡ waiting self.old ++ (activity ∷ []) }
    {
        self.activities.push(activity);
    }

    /// The due activities put their numbers, one after the other, or are missed in safe mode; either way they are gone.
    /// It answers how many were missed.
    #[inline(never)]
    pub fn release(&mut self, time: u64, safe_mode: bool, parameters: &mut Parameters) -> u64
        requires { Placed (waiting self.old) }
        ensures waiting { waiting self.new
            ≡ fated is_waiting (λ a. fate_of a time safe_mode) (waiting self.old) }
        ensures put { parameters.new.values
            ≡ put_all (fated is_done (λ a. fate_of a time safe_mode) (waiting self.old))
            parameters.old.values }
        ensures missed { result
            ≡ length (fated is_missed (λ a. fate_of a time safe_mode) (waiting self.old)) }
        ensures few { result ≤ 32 }
    {
        // Mostly nothing is due, which is found out sooner than it is done.
        if !self.is_due(time) {
            return 0;
        }
        let mut missed = 0;
        for activity in self.waiting() {
            match activity.fate(time, safe_mode) {
                Fate::Waits => {}
                Fate::Missed => missed += 1,
                Fate::Done => parameters.put(activity.place, activity.number),
            }
        }
        self.activities
            .retain(|activity| activity.fate(time, safe_mode).waits());
        missed
    }
}

impl Clone for Schedule {
    ghost use Rattle.std.specs.Prelude.{⊤};
    ghost use Rattle.schedule.specs.Waiting.{waiting};

    ghost is_clone = { λ schedule copy. waiting copy ≡ waiting schedule };

    ghost is_infallible = { λ _. ⊤ };

    fn clone(&self) -> Result<Schedule, AllocError> {
        let activities = self.activities.clone()?;
        Ok(Schedule { activities })
    }
}
