ghost use Rattle.std.specs.Prelude.{◌≡◌};
ghost use Rattle.rules.specs.Numbers.{rule_numbers, rule_in};

/// Watches a parameter: past its limit for so many ticks in a row, it acts once.
/// Its marks are fields of their own and no enums: it has a limit whichever way it is past it, and one that puts to
/// safe mode keeps its place and number, since memory, frames and texts have all seven numbers of every rule.
#[derive(Clone, Copy, PartialEq, Eq, Debug, Drop)]
pub struct Rule {
    /// The place of the parameter that it watches.
    pub watches: u64,
    pub limit: u64,
    /// Past at the limit and above, else at it and below.
    pub upward: bool,
    /// How many ticks in a row it needs to act; a rule that needs 0 is off.
    pub needs: u64,
    /// Whether it puts the satellite to safe mode, or else a number at a place.
    pub safes: bool,
    pub place: u64,
    pub number: u64,
}

/// A rule, and for how many ticks in a row it has been past its limit.
#[derive(Clone, Copy)]
pub struct Monitor {
    pub rule: Rule,
    pub count: u64,
}

#[derive(Clone, Copy)]
pub struct Rules {
    pub monitors: [Monitor; 16],
}

/// The seven numbers of a rule, in the order in which frames, texts and memory have them; its marks as 1 or 0.
impl From<Rule> for [u64; 7] {
    ghost from_gives = { λ rule numbers. numbers ≡ rule_numbers rule };

    fn from(rule: Rule) -> [u64; 7] {
        [
            rule.watches,
            rule.limit,
            u64::from(rule.upward),
            rule.needs,
            u64::from(rule.safes),
            rule.place,
            rule.number,
        ]
    }
}

/// The rule that seven numbers say; a mark is set by 1 and by nothing else.
impl From<[u64; 7]> for Rule {
    ghost from_gives = { λ numbers rule. rule ≡ rule_in numbers };

    fn from(numbers: [u64; 7]) -> Rule {
        let [watches, limit, upward, needs, safes, place, number] = numbers;
        Rule {
            watches,
            limit,
            upward: upward == 1,
            needs,
            safes: safes == 1,
            place,
            number,
        }
    }
}
