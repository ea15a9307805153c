//! The story of the satellite told again, plainly and with everything kept once, to compare flights with.
ghost use Rattle.std.specs.Prelude.{◌<◌};

use std::mem;

// An activity that waits for its time.
#[derive(Clone, Copy)]
struct Waiting {
    release: u64,
    place: u64,
    number: u64,
}

/// A rule, with its marks beside its numbers as frames and memory have them, and for how many ticks in a row it has
/// been past its limit.
#[derive(Clone, Copy, Default)]
pub struct Watch {
    watches: u64,
    limit: u64,
    upward: bool,
    needs: u64,
    safes: bool,
    place: u64,
    number: u64,
    count: u64,
}

#[derive(Clone, Copy)]
pub struct Story {
    pub time: u64,
    pub expected: u64,
    safe_mode: bool,
    pub rejected: u64,
    pub missed: u64,
    parameters: [u64; 64],
    // In their order, the first places taken.
    activities: [Option<Waiting>; 32],
    pub watches: [Watch; 16],
}

/// No number of a flight of fewer than 2^62 ticks is larger.
pub const LARGEST: u64 = 0x4000_0000_0000_0000;

/// As three words of memory, or the arguments of a frame, have it.
impl From<[u64; 3]> for Waiting {
    fn from([release, place, number]: [u64; 3]) -> Waiting {
        Waiting {
            release,
            place,
            number,
        }
    }
}

impl From<Waiting> for [u64; 3] {
    fn from(activity: Waiting) -> [u64; 3] {
        [activity.release, activity.place, activity.number]
    }
}

/// As seven words of memory, or the arguments of a frame, have it. Nothing is counted yet.
impl From<[u64; 7]> for Watch {
    fn from([watches, limit, upward, needs, safes, place, number]: [u64; 7]) -> Watch {
        Watch {
            watches,
            limit,
            upward: upward == 1,
            needs,
            safes: safes == 1,
            place,
            number,
            count: 0,
        }
    }
}

impl From<Watch> for [u64; 7] {
    fn from(watch: Watch) -> [u64; 7] {
        [
            watch.watches,
            watch.limit,
            u64::from(watch.upward),
            watch.needs,
            u64::from(watch.safes),
            watch.place,
            watch.number,
        ]
    }
}

impl Watch {
    // In a tick in which what it watches has this value.
    fn see(&mut self, value: u64) {
        let is_past = if self.upward {
            self.limit <= value
        } else {
            value <= self.limit
        };
        self.count = if is_past {
            self.count.wrapping_add(1)
        } else {
            0
        };
    }

    /// Whether it acts in this tick.
    pub fn acts(&self) -> bool {
        self.needs > 0 && self.needs == self.count
    }
}

impl Story {
    pub fn at_launch() -> Story {
        Story {
            time: 0,
            expected: 0,
            safe_mode: true,
            rejected: 0,
            missed: 0,
            parameters: [0; 64],
            activities: [None; 32],
            watches: [Watch::default(); 16],
        }
    }

    /// One tick: the instruments, the rules, what is due, and the frame that came up.
    pub fn tick(&mut self, readings: &[u16; 16], frame: Option<&[u64; 12]>) {
        self.time = self.time.wrapping_add(1);
        self.read(readings);
        self.watch();
        self.release();
        if let Some(numbers) = frame {
            self.hear(numbers);
        }
    }

    fn read(&mut self, readings: &[u16; 16]) {
        for (parameter, reading) in self.parameters.iter_mut().zip(readings) {
            *parameter = u64::from(*reading);
        }
    }

    // Each rule after what those before it did.
    fn watch(&mut self) {
        let mut watches = self.watches;
        for watch in &mut watches {
            watch.see(self.parameters[(watch.watches % 64) as usize]);
            if watch.acts() {
                self.act(watch);
            }
        }
        self.watches = watches;
    }

    fn act(&mut self, watch: &Watch) {
        if watch.safes {
            self.safe_mode = true;
        } else {
            self.put(watch.place, watch.number);
        }
    }

    fn put(&mut self, place: u64, number: u64) {
        self.parameters[(place % 64) as usize] = number;
    }

    // Each activity that is due is done or missed, in their order; the others wait on.
    fn release(&mut self) {
        let activities = mem::replace(&mut self.activities, [None; 32]);
        self.wait_on(&activities);
        for activity in activities.iter().flatten() {
            if activity.release == self.time {
                self.comes_due(*activity);
            }
        }
    }

    fn wait_on(&mut self, activities: &[Option<Waiting>; 32]) {
        let time = self.time;
        let later = activities
            .iter()
            .flatten()
            .filter(|activity| activity.release != time);
        for (room, activity) in self.activities.iter_mut().zip(later) {
            *room = Some(*activity);
        }
    }

    fn comes_due(&mut self, activity: Waiting) {
        if self.safe_mode {
            self.missed = self.missed.wrapping_add(1);
        } else {
            self.put(activity.place, activity.number);
        }
    }

    // Behind those that wait, where there is room.
    fn keep(&mut self, activity: Waiting) {
        let waiting = self.waiting();
        if let Some(room) = self.activities.get_mut(waiting) {
            *room = Some(activity);
        }
    }

    /// How many activities wait.
    pub fn waiting(&self) -> usize {
        self.activities.iter().flatten().count()
    }

    fn hear(&mut self, frame: &[u64; 12]) {
        if is_whole(frame) && frame[0] == self.expected {
            self.expected = self.expected.wrapping_add(1);
            if !self.obeys(frame) {
                self.rejected = self.rejected.wrapping_add(1);
            }
        }
    }

    // Does what a frame commands, or says that it cannot be done. A kind is the number that the description gives it:
    // a frame may have any.
    fn obeys(&mut self, frame: &[u64; 12]) -> bool {
        let [_, kind, a, b, c, d, e, f, g, h, _, _] = *frame;
        match kind {
            0 => self.puts(a, b),
            1 => self.schedules(Waiting::from([a, b, c])),
            2 => {
                self.activities = [None; 32];
                true
            }
            3 => {
                self.safe_mode = true;
                true
            }
            4 => {
                self.safe_mode = false;
                true
            }
            5 => self.sets(a, Watch::from([b, c, d, e, f, g, h])),
            _ => false,
        }
    }

    fn puts(&mut self, place: u64, number: u64) -> bool {
        let can = is_free(place);
        if can {
            self.put(place, number);
        }
        can
    }

    fn schedules(&mut self, activity: Waiting) -> bool {
        let can = is_free(activity.place) && activity.release > self.time && self.waiting() < 32;
        if can {
            self.keep(activity);
        }
        can
    }

    fn sets(&mut self, index: u64, watch: Watch) -> bool {
        let can = index < 16 && watch.watches < 64 && (watch.safes || is_free(watch.place));
        if can {
            self.watches[index as usize] = watch;
        }
        can
    }

    /// The satellite that words without a fault say; no `From`, since other words say none.
    pub fn of(words: &[u64; 294]) -> Story {
        let [time, expected, safe_mode, rejected, missed, ..] = *words;
        let mut story = Story::at_launch();
        story.time = time;
        story.expected = expected;
        story.safe_mode = safe_mode == 1;
        story.rejected = rejected;
        story.missed = missed;
        story.parameters.copy_from_slice(&words[5..69]);
        story.read_activities(words);
        story.read_watches(words);
        story
    }

    fn read_activities(&mut self, words: &[u64; 294]) {
        let (activities, _) = words[70..166].as_chunks();
        for activity in activities.iter().take(words[69] as usize) {
            self.keep(Waiting::from(*activity));
        }
    }

    fn read_watches(&mut self, words: &[u64; 294]) {
        let (rules, _) = words[166..278].as_chunks();
        for (watch, (rule, count)) in self.watches.iter_mut().zip(rules.iter().zip(&words[278..])) {
            *watch = Watch {
                count: *count,
                ..Watch::from(*rule)
            };
        }
    }

    /// What goes down after a tick.
    pub fn report(&self) -> [u64; 8] {
        [
            self.time,
            self.expected,
            u64::from(self.safe_mode),
            self.rejected,
            self.missed,
            self.waiting() as u64,
            self.parameters[0],
            self.parameters[1],
        ]
    }

    /// The words of memory.
    pub fn words(&self) -> [u64; 294] {
        let mut words = [0; 294];
        words[0] = self.time;
        words[1] = self.expected;
        words[2] = u64::from(self.safe_mode);
        words[3] = self.rejected;
        words[4] = self.missed;
        words[5..69].copy_from_slice(&self.parameters);
        words[69] = self.waiting() as u64;
        self.write_activities(&mut words);
        self.write_watches(&mut words);
        self.write_counts(&mut words);
        words
    }

    // No generic one for this and `write_watches`: it would name the size, the type and the iterator of two lines.
    fn write_activities(&self, words: &mut [u64; 294]) {
        let (places, _) = words[70..166].as_chunks_mut();
        for (place, activity) in places.iter_mut().zip(self.activities.iter().flatten()) {
            *place = (*activity).into();
        }
    }

    fn write_watches(&self, words: &mut [u64; 294]) {
        let (places, _) = words[166..278].as_chunks_mut();
        for (place, watch) in places.iter_mut().zip(&self.watches) {
            *place = (*watch).into();
        }
    }

    fn write_counts(&self, words: &mut [u64; 294]) {
        for (place, watch) in words[278..].iter_mut().zip(&self.watches) {
            *place = watch.count;
        }
    }
}

/// The lowest word that no lawful flight leaves.
pub fn fault(words: &[u64; 294]) -> Option<usize> {
    words
        .iter()
        .enumerate()
        .position(|(k, word)| *word > LARGEST || is_misplaced(words, k))
}

fn is_misplaced(words: &[u64; 294], k: usize) -> bool {
    match k {
        69 => words[69] > 32,
        70..=165 => is_wrong_activity(words, k - 70),
        166..=277 => is_wrong_watch(words, k - 166),
        _ => false,
    }
}

// Whether word k of the activities waits for a time that has been, or for a place that cannot be put.
fn is_wrong_activity(words: &[u64; 294], k: usize) -> bool
    requires { k < 96 }
{
    let word = words[70 + k];
    let waits = ((k / 3) as u64) < words[69];
    match k % 3 {
        0 => waits && word <= words[0],
        1 => waits && !is_free(word),
        _ => false,
    }
}

// Whether word k of the rules watches no parameter, or is the place of a rule that would put where it cannot.
fn is_wrong_watch(words: &[u64; 294], k: usize) -> bool
    requires { k < 112 }
{
    let word = words[166 + k];
    match k % 7 {
        0 => word >= 64,
        5 => words[166 + k - 2] > 0 && words[166 + k - 1] != 1 && !is_free(word),
        _ => false,
    }
}

// Places from 16 to 63 can be put, those below are instruments.
fn is_free(place: u64) -> bool {
    place >= 16 && place < 64
}

fn is_whole(frame: &[u64; 12]) -> bool {
    frame.iter().all(|number| *number < 0x1_0000_0000) && frame[11] == check_of(frame)
}

/// The check over the first eleven numbers of a frame.
pub fn check_of(frame: &[u64; 12]) -> u64 {
    let sum = frame[..11]
        .iter()
        .zip(1..)
        .fold(0u64, |sum, (number, weight)| {
            sum.wrapping_add(number.wrapping_mul(weight))
        });
    sum % 65521
}
