use parameters::Parameters;
use rules::Rules;
use schedule::Schedule;

/// All that the satellite is, as a value: docs/INTERFACE.md has its words in memory.
#[derive(Clone, Drop)]
pub struct Satellite {
    /// Ticks since launch.
    pub time: u64,
    /// The number of the command that it expects next.
    pub expected: u64,
    /// In safe mode nothing scheduled is done.
    pub safe_mode: bool,
    /// How many commands could not be done.
    pub rejected: u64,
    /// How many activities came due in safe mode.
    pub missed: u64,
    pub parameters: Parameters,
    pub schedule: Schedule,
    pub rules: Rules,
}
