//! The theorems over every flight, each carried by the contract of a function.

#![tactic(auto)]

ghost use Rattle.flight.specs.Flight.{FliesRight, NeverRefused, CarriesOn};
ghost use Rattle.flight.specs.Commanding.{EachOnce, ComesThrough, SafeAtOnce};
ghost use Rattle.flight.specs.Effects.{CommandsAct, ElseIgnored, TickKeeps, ReadsRight, KeepsSizes, TimeRight, RejectedRight, LaunchesRight};
ghost use Rattle.flight.specs.Scheduling.{PartsInTick, EachActivity, NeverLate, KeptTillDue, OneIsLast, PutWhenDue, ElseKept, MissedInSafeMode, ReleasesRight, MissedRight};
ghost use Rattle.flight.specs.Protecting.{PastRight, CountsRight, InstrumentsRight, BeginsAnew, ActsJustThen, SafeByRules, RulesPut, ElseUntouched, LooksRight, SafeLasts};
ghost use Rattle.flight.specs.EveryFlight.{FlewLawfully};

/// Whatever the readings, the frames and the upsets, what memory holds is the story's.
pub fn flies_right()
    ensures { FliesRight }
{}

/// What a flight of fewer than 2^62 ticks leaves is not refused.
pub fn never_refused()
    ensures { NeverRefused }
{}

/// One more tick from whatever the memory became goes on with the flight.
pub fn carries_on()
    ensures { CarriesOn }
{}

/// The inputs of every flight are lawful.
pub fn flew_lawfully()
    ensures { FlewLawfully }
{}

/// Each command is obeyed once, in order, none left out.
pub fn each_once()
    ensures { EachOnce }
{}

/// A command that has the expected number comes through.
pub fn comes_through()
    ensures { ComesThrough }
{}

/// Safe mode is had in the tick in which it is commanded.
pub fn safe_at_once()
    ensures { SafeAtOnce }
{}

/// Each command has its effect, and only that.
pub fn commands_act()
    ensures { CommandsAct }
{}

/// What is not its turn changes nothing; what cannot be done changes two counters.
pub fn else_ignored()
    ensures { ElseIgnored }
{}

/// What a tick leaves as it was, whatever comes up.
pub fn tick_keeps()
    ensures { TickKeeps }
{}

/// The first sixteen parameters are what was read.
pub fn reads_right()
    ensures { ReadsRight }
{}

/// Never more than 32 activities, and always 64 parameters and 16 rules.
pub fn keeps_sizes()
    ensures { KeepsSizes }
{}

/// Time is the number of ticks.
pub fn time_right()
    ensures { TimeRight }
{}

/// Rejected counts the commands whose turn came and that could not be done.
pub fn rejected_right()
    ensures { RejectedRight }
{}

/// The state at launch, in words.
pub fn launches_right()
    ensures { LaunchesRight }
{}

/// In each tick the due activities are gone, the others wait on in their order.
pub fn parts_in_tick()
    ensures { PartsInTick }
{}

/// What waits stays until its tick, unless all is forgotten; then it is gone; and only `Later` adds one.
pub fn each_activity()
    ensures { EachActivity }
{}

/// No activity is kept past its time.
pub fn never_late()
    ensures { NeverLate }
{}

/// What waits on is touched by no command but forget, and later adds one behind.
pub fn kept_till_due()
    ensures { KeptTillDue }
{}

/// Of the activities for one place and one time one is the last.
pub fn one_is_last()
    ensures { OneIsLast }
{}

/// The last due activity for a place has put its number, outside safe mode.
pub fn put_when_due()
    ensures { PutWhenDue }
{}

/// A place for which no activity is due keeps what it held.
pub fn else_kept()
    ensures { ElseKept }
{}

/// In safe mode each due activity is counted as missed and changes no parameter.
pub fn missed_in_safe_mode()
    ensures { MissedInSafeMode }
{}

/// The release of activities, of whatever state: what is put, what is missed, and that nothing else changes.
pub fn releases_right()
    ensures { ReleasesRight }
{}

/// Missed counts what it should over the whole flight.
pub fn missed_right()
    ensures { MissedRight }
{}

/// Past its limit, in words, at the limit and one off it.
pub fn past_right()
    ensures { PastRight }
{}

/// The count of a rule: for how many of the latest ticks what it saw was past.
pub fn counts_right()
    ensures { CountsRight }
{}

/// The same of an instrument, by what was read.
pub fn instruments_right()
    ensures { InstrumentsRight }
{}

/// A rule that is set begins from 0.
pub fn begins_anew()
    ensures { BeginsAnew }
{}

/// A rule acts just when its count becomes what it needs, else only its count changes.
pub fn acts_just_then()
    ensures { ActsJustThen }
{}

/// Safe mode by a rule is had in that very tick, before the activities.
pub fn safe_by_rules()
    ensures { SafeByRules }
{}

/// Safe mode lasts until it is commanded otherwise.
pub fn safe_lasts()
    ensures { SafeLasts }
{}

/// At each look the last rule before it that acts for a place has put its number there.
pub fn rules_put()
    ensures { RulesPut }
{}

/// At each look a place for which none acts, and that is no instrument's, is as the tick before left it.
pub fn else_untouched()
    ensures { ElseUntouched }
{}

/// At each look the instruments' places hold what was read, and after the last activities are released.
pub fn looks_right()
    ensures { LooksRight }
{}
