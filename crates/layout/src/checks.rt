ghost use Rattle.layout.specs.Map.{waiting_at, activities_at, rules_at, counts_at, word_count};
ghost use Rattle.std.specs.Prelude.{◌≡◌, ℕ, ◌<◌, ◌≤◌, true, ◌⊎◌, slice_index};
ghost use Rattle.parameters.specs.Places.{may_put};
ghost use Rattle.layout.specs.Fault.{activity_fault, rule_fault, at_fault, lowest_fault, Small, Later, MayPut, Watches, Puts, Sane, FaultsRight, TidyRight};

use crate::map::{
    ACTIVITIES, ACTIVITY, COUNTS, NEEDS_WORD, PLACE_WORD, RELEASE_WORD, RULE, RULE_PLACE_WORD,
    RULES, SAFES_WORD, TIME, WAITING, WATCHES_WORD, WORDS,
};
use crate::read::{activity, monitor};
use parameters::{PLACES, may_put};
use rules::{COUNT, Rule};
use schedule::{Activity, ROOM};

// The largest number that a flight of fewer than 2^62 ticks can leave.
const LARGEST: u64 = 1 << 62;

/// The lowest word that no lawful flight of fewer than 2^62 ticks leaves, if there is one.
pub fn fault(words: &[u64; WORDS]) -> Option<usize>
    ensures { result ≡ lowest_fault words.now }
{
    // Mostly no word is at fault, which is found out sooner than the lowest one.
    if sane(words) {
        return None;
    }
    (0..WORDS).find(|k| at_fault(words, *k))
}

// Whether surely no word is at fault.
fn sane(words: &[u64; WORDS]) -> bool
    ensures { result ≡ true → Sane words.now }
{
    small(words) && words[WAITING] <= ROOM as u64 && activities_sane(words) && rules_sane(words)
}

// Whether surely no word is too large: none is larger than all of them or-ed together.
fn small(words: &[u64; WORDS]) -> bool
    ensures { result ≡ true → Small words.now }
{
    words.iter().fold(0, |all, word| all | word) <= LARGEST
}

fn activities_sane(words: &[u64; WORDS]) -> bool
    requires { slice_index words.now waiting_at ≤ 32 }
    ensures { result ≡ true
        → ((i : ℕ) → i < slice_index words.now waiting_at
        → Later words.now i × MayPut words.now i) }
{
    (0..words[WAITING] as usize).all(|i| activity_sane(words[TIME], activity(words, i)))
}

fn activity_sane(time: u64, activity: Activity) -> bool
    ensures { result ≡ true → (time < activity.release) × (may_put activity.place ≡ true) }
{
    time < activity.release && may_put(activity.place)
}

fn rules_sane(words: &[u64; WORDS]) -> bool
    ensures { result ≡ true → ((i : ℕ) → i < 16 → Watches words.now i × Puts words.now i) }
{
    (0..COUNT).all(|i| rule_sane(monitor(words, i).rule))
}

fn rule_sane(rule: Rule) -> bool
    ensures { result ≡ true
        → (rule.watches < 64)
        × ((rule.needs ≡ 0) ⊎ ((rule.safes ≡ true) ⊎ (may_put rule.place ≡ true))) }
{
    rule.watches < PLACES as u64 && (rule.needs == 0 || rule.safes || may_put(rule.place))
}

fn at_fault(words: &[u64; WORDS], k: usize) -> bool
    requires { k < word_count }
    ensures { result ≡ at_fault words.now k }
{
    words[k] > LARGEST
        || match k {
            WAITING => words[k] > ROOM as u64,
            ACTIVITIES..RULES => activity_fault(words, k),
            RULES..COUNTS => rule_fault(words, k),
            _ => false,
        }
}

// A word is told by its place, since the answer is a place. Of an activity that waits: its time is not after now, or its
// place may not be put. Like `rule_fault` not inlined, for the compiler would work out both for every word (bench/README.md).
#[inline(never)]
fn activity_fault(words: &[u64; WORDS], k: usize) -> bool
    requires past { activities_at ≤ k }
    requires inside { k < rules_at }
    ensures { result ≡ activity_fault words.now k }
{
    if (k - ACTIVITIES) / ACTIVITY >= words[WAITING] as usize {
        return false;
    }
    match (k - ACTIVITIES) % ACTIVITY {
        RELEASE_WORD => words[k] <= words[TIME],
        PLACE_WORD => !may_put(words[k]),
        _ => false,
    }
}

// Of a rule: it watches no parameter, or it is on and puts where it may not.
#[inline(never)]
fn rule_fault(words: &[u64; WORDS], k: usize) -> bool
    requires past { rules_at ≤ k }
    requires inside { k < counts_at }
    ensures { result ≡ rule_fault words.now k }
{
    match (k - RULES) % RULE {
        WATCHES_WORD => words[k] >= PLACES as u64,
        RULE_PLACE_WORD => {
            let needs = words[k - (RULE_PLACE_WORD - NEEDS_WORD)];
            let safes = words[k - (RULE_PLACE_WORD - SAFES_WORD)];
            needs >= 1 && safes != 1 && !may_put(words[k])
        }
        _ => false,
    }
}

/// The words at fault are those that the map forbids.
pub fn faults_right()
    ensures { FaultsRight }
{}

/// What is written is tidy words, and tidy words are at fault no more than what is written.
pub fn tidy_right()
    ensures { TidyRight }
{}
