//! The ground's side: from a file of commands and the reports heard so far, which frame to send
//! next and what is surely so.

#![tactic(auto)]

ghost use Rattle.std.specs.Prelude.{◌≡◌, Some, None};
ghost use Rattle.station.specs.Line.{frame_for, expected_of, rejected_of, later_of};
ghost use Rattle.station.specs.Passes.{SurelyObeyed, ComesThrough, AllObeyed};
ghost use Rattle.station.specs.Relay.{DeliveredOver, CanDeliver};

use frame::{Command, Telecommand, encode};
use telemetry::Report;

/// A file of commands, numbered from 0, and the latest report heard.
#[derive(Drop)]
pub struct Station {
    commands: Vec<Command>,
    latest: Option<Report>,
}

impl Station {
    /// No report was heard yet.
    pub fn new(commands: Vec<Command>) -> Station
        ensures commands { result.commands ≡ commands }
        ensures latest { result.latest ≡ None }
    {
        Station {
            commands,
            latest: None,
        }
    }

    /// A report was heard; one that comes late does not take the place of a later tick's.
    pub fn hear(&mut self, report: Report)
        ensures latest { self.new.latest ≡ Some (later_of self.old.latest report) }
        ensures commands { self.new.commands ≡ self.old.commands }
    {
        if self.latest.is_none_or(|latest| latest.time <= report.time) {
            self.latest = Some(report);
        }
    }

    /// The frame to send next: of the command that the latest report expects; none past the last.
    pub fn next_frame(&self) -> Option<[u64; 12]>
        ensures { result ≡ frame_for self.now.commands.items (expected_of self.now.latest) }
    {
        self.frame_for(self.surely_obeyed())
    }

    /// The frame of a command of the file, by its number.
    pub fn frame_for(&self, number: u64) -> Option<[u64; 12]>
        ensures { result ≡ frame_for self.now.commands.items number }
    {
        let command = *self.commands.get(number as usize)?;
        encode(Telecommand { number, command })
    }

    /// How many of the first commands are surely obeyed: all below the number that the latest
    /// report expects.
    pub fn surely_obeyed(&self) -> u64
        ensures { result ≡ expected_of self.now.latest }
    {
        self.latest.map_or(0, |report| report.expected)
    }

    /// How many of those could not be done.
    pub fn known_rejected(&self) -> u64
        ensures { result ≡ rejected_of self.now.latest }
    {
        self.latest.map_or(0, |report| report.rejected)
    }

    /// The report as of which all this is known.
    pub fn latest(&self) -> Option<Report>
        ensures { result ≡ self.now.latest }
    {
        self.latest
    }
}

/// What a report expects was obeyed before it, exactly and in order.
pub fn obeyed_surely()
    ensures { SurelyObeyed }
{}

/// A named frame that comes up is obeyed in that tick.
pub fn comes_through()
    ensures { ComesThrough }
{}

/// Over a line that brings one frame in any d ticks, n commands are obeyed in at most d * n ticks.
pub fn all_obeyed()
    ensures { AllObeyed }
{}

/// There are flights over such a line: one over each line that is up once at least in any d ticks,
/// where the ground sends in each tick the frame that it names; so one for each file that can be
/// sent, which obeys it all.
pub fn delivered_over()
    ensures over { DeliveredOver }
    ensures exists { CanDeliver }
{}
