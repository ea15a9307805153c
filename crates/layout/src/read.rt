ghost use Rattle.std.specs.Prelude.{◌≡◌, ◌+◌, ◌<◌, ◌≤◌, map, take, drop, slice_index};
ghost use Rattle.std.specs.List.{range_with_len};
ghost use Rattle.rules.specs.Monitors.{rule_of, count_of};
ghost use Rattle.schedule.specs.Waiting.{waiting};
ghost use Rattle.satellite.specs.Model.{model};
ghost use Rattle.layout.specs.Map.{activity_at, monitor_at, rules_in, schedule_in, state_of, waiting_at, counts_at, word_count};

use crate::map::{
    ACTIVITIES, ACTIVITY, COUNTS, EXPECTED, MISSED, PARAMETERS, REJECTED, RULE, RULES, SAFE_MODE,
    TIME, WAITING, WORDS,
};
use crate::write::replace;
use rules::{Monitor, Rule};
use satellite::Satellite;
use schedule::{Activity, Schedule};

/// The satellite that words say. No `From`: this crate owns neither type.
pub fn satellite(words: &[u64; WORDS]) -> Satellite
    requires { slice_index words.now waiting_at ≤ 32 }
    ensures { model result ≡ state_of words.now }
{
    let mut satellite = Satellite::at_launch();
    fill(words, &mut satellite);
    satellite
}

// In place, and not inlined, so that to give the satellite back costs nothing.
#[inline(never)]
fn fill(words: &[u64; WORDS], satellite: &mut Satellite)
    requires { slice_index words.now waiting_at ≤ 32 }
    ensures { model satellite.new ≡ state_of words.now }
{
    satellite.time = words[TIME];
    satellite.expected = words[EXPECTED];
    satellite.safe_mode = words[SAFE_MODE] == 1;
    satellite.rejected = words[REJECTED];
    satellite.missed = words[MISSED];
    replace(
        &mut satellite.parameters.values,
        &words[PARAMETERS..WAITING],
    );
    fill_schedule(words, &mut satellite.schedule);
    fill_monitors(words, &mut satellite.rules.monitors);
}

// Those that wait, one after the other.
fn fill_schedule(words: &[u64; WORDS], schedule: &mut Schedule)
    requires { slice_index words.now waiting_at ≤ 32 }
    ensures { waiting schedule.new ≡ schedule_in words.now }
{
    schedule.clear();
    for k in 0..words[WAITING] as usize {
        schedule.add(activity(words, k));
    }
}

pub(crate) fn activity(words: &[u64; WORDS], k: usize) -> Activity
    requires { k < 32 }
    ensures { result ≡ activity_at words.now k }
{
    Activity::from(part(words, ACTIVITIES + ACTIVITY * k))
}

fn fill_monitors(words: &[u64; WORDS], monitors: &mut [Monitor; 16])
    ensures rules { map rule_of monitors.new ≡ rules_in words.now }
    ensures counts { map count_of monitors.new ≡ take 16 (drop counts_at words.now) }
{
    for (k, room) in monitors.iter_mut().enumerate() {
        *room = monitor(words, k);
    }
}

pub(crate) fn monitor(words: &[u64; WORDS], k: usize) -> Monitor
    requires { k < 16 }
    ensures { result ≡ monitor_at words.now k }
{
    Monitor {
        rule: Rule::from(part(words, RULES + RULE * k)),
        count: words[COUNTS + k],
    }
}

// A part of the words, from a place on.
fn part<const M: usize>(words: &[u64; WORDS], from: usize) -> [u64; M]
    requires { from + M ≤ word_count }
    ensures { result ≡ take M (drop from words.now) }
{
    let mut part = [0; M];
    part.copy_from_slice(&words[from..from + M]);
    part
}
