ghost use Rattle.std.specs.Prelude.{◌≡◌, ◌≤◌, true};
ghost use Rattle.satellite.specs.Story.{can, done, obeyed};
ghost use Rattle.satellite.specs.Fit.{most};
ghost use Rattle.satellite.specs.Model.{model};

use crate::state::Satellite;
use frame::{Command, Telecommand};
use parameters::may_put;
use rules::COUNT;

impl Satellite {
    // The expected command is done or counted as rejected, and then the next one is expected.
    // Any other command is as if it had not come.
    pub(super) fn obey(&mut self, telecommand: Telecommand)
        requires low_expected { self.old.expected ≤ most }
        requires low_rejected { self.old.rejected ≤ most }
        ensures { model self.new ≡ obeyed telecommand (model self.old) }
    {
        if telecommand.number != self.expected {
            return;
        }
        if self.can(telecommand.command) {
            self.execute(telecommand.command);
        } else {
            self.rejected += 1;
        }
        self.expected += 1;
    }

    /// Whether a command can be done now.
    pub fn can(&self, command: Command) -> bool
        ensures { result ≡ can (model self.now) command }
    {
        match command {
            Command::Put { place, .. } => may_put(place),
            Command::Later { activity } => {
                may_put(activity.place) && self.time < activity.release && !self.schedule.is_full()
            }
            Command::Forget | Command::Sleep | Command::Wake => true,
            Command::SetRule { index, rule } => index < COUNT as u64 && rule.may_set(),
            Command::Unknown { .. } => false,
        }
    }

    // Does a command that can be done.
    fn execute(&mut self, command: Command)
        requires { can (model self.old) command ≡ true }
        ensures { model self.new ≡ done (model self.old) command }
    {
        match command {
            Command::Put { place, number } => self.parameters.put(place, number),
            Command::Later { activity } => self.schedule.add(activity),
            Command::Forget => self.schedule.clear(),
            Command::Sleep => self.safe_mode = true,
            Command::Wake => self.safe_mode = false,
            Command::SetRule { index, rule } => self.rules.set(index, rule),
            Command::Unknown { .. } => {}
        }
    }
}
