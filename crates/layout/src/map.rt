ghost use Rattle.layout.specs.Map.{ReadsBack};

use parameters::PLACES;
use rules::COUNT;
use schedule::ROOM;

/// How many words the satellite has.
pub const WORDS: usize = COUNTS + COUNT;

// Where they lie: each part begins where the one before it ends.
pub const TIME: usize = 0;

pub const EXPECTED: usize = TIME + 1;

pub const SAFE_MODE: usize = EXPECTED + 1;

pub const REJECTED: usize = SAFE_MODE + 1;

pub const MISSED: usize = REJECTED + 1;

pub const PARAMETERS: usize = MISSED + 1;

pub const WAITING: usize = PARAMETERS + PLACES;

pub const ACTIVITIES: usize = WAITING + 1;

pub const RULES: usize = ACTIVITIES + ACTIVITY * ROOM;

pub const COUNTS: usize = RULES + RULE * COUNT;

// How many words an activity and a rule take, and which of them say what.
pub const ACTIVITY: usize = 3;

pub const RELEASE_WORD: usize = 0;

pub const PLACE_WORD: usize = 1;

pub const RULE: usize = 7;

pub const WATCHES_WORD: usize = 0;

pub const NEEDS_WORD: usize = 3;

pub const SAFES_WORD: usize = 4;

pub const RULE_PLACE_WORD: usize = 5;

/// What was written is what is read.
pub fn reads_back()
    ensures { ReadsBack }
{}
