//! The 16 fault-protection rules, by value, each with its count.

#![tactic(auto)]

ghost use Rattle.std.specs.Prelude.{◌≡◌, ◌+◌, ◌^◌, ◌<◌, ◌≤◌, set, replicate};
ghost use Rattle.rules.specs.Watching.{off, is_past, next_count, acts, may_set};
ghost use Rattle.rules.specs.Monitors.{rules_of, counts_of};

mod rule;

use parameters::may_put;
pub use rule::{Monitor, Rule, Rules};

/// How many rules there are.
pub const COUNT: usize = 16;

/// A rule that is off.
pub const OFF: Rule = Rule {
    watches: 0,
    limit: 0,
    upward: false,
    needs: 0,
    safes: false,
    place: 0,
    number: 0,
};

impl Rule {
    /// Whether a value is past the limit.
    pub fn is_past(self, value: u64) -> bool
        ensures { result ≡ is_past self value }
    {
        if self.upward {
            value >= self.limit
        } else {
            value <= self.limit
        }
    }

    /// For how many ticks it has been past, with this one.
    pub fn next_count(self, value: u64, count: u64) -> u64
        requires { count ≤ 2 ^ 62 }
        ensures { result ≡ next_count self value count }
    {
        if self.is_past(value) { count + 1 } else { 0 }
    }

    /// Whether it acts, its count being this now.
    pub fn acts(self, count: u64) -> bool
        ensures { result ≡ acts self count }
    {
        self.needs >= 1 && count == self.needs
    }

    /// Whether it may be set.
    pub fn may_set(self) -> bool
        ensures { result ≡ may_set self }
    {
        self.watches <= 63 && (self.safes || may_put(self.place))
    }
}

impl Rules {
    /// All rules are off.
    pub fn at_launch() -> Rules
        ensures rules { rules_of result ≡ replicate 16 off }
        ensures counts { counts_of result ≡ replicate 16 0 }
    {
        Rules {
            monitors: [Monitor {
                rule: OFF,
                count: 0,
            }; COUNT],
        }
    }

    /// A rule is this, and begins from 0.
    pub fn set(&mut self, index: u64, rule: Rule)
        requires { index < 16 }
        ensures rules { rules_of self.new ≡ set (rules_of self.old) index rule }
        ensures counts { counts_of self.new ≡ set (counts_of self.old) index 0 }
    {
        self.monitors[index as usize] = Monitor { rule, count: 0 };
    }
}
