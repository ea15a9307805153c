ghost use Rattle.std.specs.Prelude.{◌≡◌, ◌+◌, ◌*◌, ◌≤◌, ◌++◌, length, map, take, drop};
ghost use Rattle.std.specs.List.{flat_map};
ghost use Rattle.rules.specs.Monitors.{rule_of};
ghost use Rattle.satellite.specs.Model.{model};
ghost use Rattle.layout.specs.Map.{activity_words, rule_words, words_of, activity_size, activities_at, rules_at, counts_at, word_count};

use crate::map::{ACTIVITIES, ACTIVITY, COUNTS, PARAMETERS, RULE, RULES, TIME, WAITING, WORDS};
use rules::{COUNT, Monitor};
use satellite::Satellite;
use schedule::{Activity, ROOM};
use std::array;

/// Writes the words of a satellite. It writes to the caller's array, for an array that is given back is copied.
pub fn write_words(satellite: &Satellite, words: &mut [u64; WORDS])
    ensures { words.new ≡ words_of (model satellite.now) }
{
    let head = [
        satellite.time,
        satellite.expected,
        u64::from(satellite.safe_mode),
        satellite.rejected,
        satellite.missed,
    ];
    let schedule = &satellite.schedule;
    let monitors = &satellite.rules.monitors;
    let counts: [u64; COUNT] = array::from_fn(|k| monitors[k].count);
    lay(words, TIME, &head);
    lay(words, PARAMETERS, &satellite.parameters.values);
    lay(words, WAITING, &[schedule.len() as u64]);
    // Noughts where no activity waits.
    lay(words, ACTIVITIES, &[0; ACTIVITY * ROOM]);
    lay_activities(words, schedule.waiting());
    lay_rules(words, monitors);
    lay(words, COUNTS, &counts);
}

// No generic loop for this and `lay_rules`: what numbers a thing has would be an `Fn` over a const parameter, of which
// nothing is proved. And arrays of the numbers of all, made by `map` and laid at once, are cleared and copied as a whole.
fn lay_activities(words: &mut [u64; WORDS], waiting: &[Activity])
    requires { length waiting.now ≤ 32 }
    ensures { words.new
        ≡ take activities_at words.old
        ++ (flat_map activity_words waiting.now
        ++ drop (activities_at + activity_size * length waiting.now) words.old) }
{
    for (k, activity) in waiting.iter().enumerate() {
        let numbers = <[u64; ACTIVITY]>::from(*activity);
        lay(words, ACTIVITIES + ACTIVITY * k, &numbers);
    }
}

fn lay_rules(words: &mut [u64; WORDS], monitors: &[Monitor; 16])
    ensures laid { words.new
        ≡ take rules_at words.old
        ++ (flat_map rule_words (map rule_of monitors.now) ++ drop counts_at words.old) }
    ensures long { length monitors.now ≡ 16 }
{
    for (k, monitor) in monitors.iter().enumerate() {
        let numbers = <[u64; RULE]>::from(monitor.rule);
        lay(words, RULES + RULE * k, &numbers);
    }
}

// Writes a part of the words, from a place on. How long the part is, is said here and in `lay_rules` since a caller that
// lends an array of a satellite behind a reference does not know it.
fn lay<const M: usize>(words: &mut [u64; WORDS], from: usize, part: &[u64; M])
    requires { from + M ≤ word_count }
    ensures laid { words.new ≡ take from words.old ++ (part.now ++ drop (from + M) words.old) }
    ensures long { length part.now ≡ M }
{
    replace(&mut words[from..from + M], part);
}

// The room becomes the part, word by word. `copy_from_slice` would look each time whether the two overlap, and an array
// given to the place of another is moved by `memmove`, which a board need not have.
pub(crate) fn replace(room: &mut [u64], part: &[u64])
    requires { length room.old ≡ length part.now }
    ensures { room.new ≡ part.now }
{
    for (k, word) in room.iter_mut().enumerate() {
        *word = part[k];
    }
}
