ghost use Rattle.std.specs.Prelude.{◌≡◌, ◌<◌, ◌≤◌, false};
ghost use Rattle.schedule.specs.Waiting.{Placed, waiting};
ghost use Rattle.frame.specs.Frame.{decoded};
ghost use Rattle.satellite.specs.State.{at_launch, rule, count};
ghost use Rattle.satellite.specs.Story.{came_up, begun, looked, acted, watched_one, watched, released, heeded, ticked};
ghost use Rattle.satellite.specs.Fit.{Fit, RuleFit, RulesFit, most};
ghost use Rattle.satellite.specs.Model.{model};

mod commands;

use crate::state::Satellite;
use frame::decode;
use parameters::Parameters;
use rules::{COUNT, Monitor, Rule, Rules};
use schedule::Schedule;

impl Satellite {
    /// At launch everything is 0, it is in safe mode, nothing waits, and all rules are off.
    pub fn at_launch() -> Satellite
        ensures { model result ≡ at_launch }
    {
        Satellite {
            time: 0,
            expected: 0,
            safe_mode: true,
            rejected: 0,
            missed: 0,
            parameters: Parameters::at_launch(),
            schedule: Schedule::empty(),
            rules: Rules::at_launch(),
        }
    }

    /// One tick: time and readings, rules, activities that are due, and then the command of the
    /// frame that came up, if one did and it is whole.
    pub fn tick(self, readings: &[u16; 16], frame: Option<&[u64; frame::LENGTH]>) -> Satellite
        requires { Fit (model self) }
        ensures { model result ≡
            ticked (record { readings = readings.now; frame = came_up frame.entry }) (model self) }
    {
        self.begin(readings).watch().release().hear(frame)
    }

    // Each step takes the satellite and gives it back. What it changes it changes in place, in a function that is not
    // inlined: so the compiler sees that all steps can have the satellite in one place, and copies nothing (bench/README.md).

    // Time goes on by one, and the first sixteen parameters are what the instruments read.
    fn begin(mut self, readings: &[u16; 16]) -> Satellite
        requires { self.time ≤ most }
        ensures { model result ≡ begun readings.now (model self) }
    {
        self.time += 1;
        self.parameters.read(readings);
        self
    }

    // The rules are looked at from 0 to 15, each after what the ones before it did.
    fn watch(mut self) -> Satellite
        requires { RulesFit (model self) }
        ensures { model result ≡ watched 16 (model self) }
    {
        for k in 0..COUNT {
            self = self.turn(k);
        }
        self
    }

    // A rule's turn: it is looked at, and acts if it is its time.
    fn turn(mut self, k: usize) -> Satellite
        requires inside { k < 16 }
        requires fits { RuleFit (rule (model self) k) }
        requires counted { count (model self) k ≤ most }
        ensures { model result ≡ watched_one k (model self) }
    {
        self.take_turn(k);
        self
    }

    #[inline(never)]
    fn take_turn(&mut self, k: usize)
        requires inside { k < 16 }
        requires fits { RuleFit (rule (model self.old) k) }
        requires counted { count (model self.old) k ≤ most }
        ensures { model self.new ≡ watched_one k (model self.old) }
    {
        let rule = self.rules.monitors[k].rule;
        let count = self.look(k);
        self.rules.monitors[k].count = count;
        if rule.acts(count) {
            self.act(rule);
        }
    }

    // For how many ticks a rule has been past its limit, with this one.
    fn look(&self, k: usize) -> u64
        requires inside { k < 16 }
        requires watches { (rule (model self.now) k).watches < 64 }
        requires counted { count (model self.now) k ≤ most }
        ensures { result ≡ looked k (model self.now) }
    {
        let Monitor { rule, count } = self.rules.monitors[k];
        rule.next_count(self.parameters.at(rule.watches), count)
    }

    // What a rule does when it acts.
    fn act(&mut self, rule: Rule)
        requires { rule.safes ≡ false → rule.place < 64 }
        ensures { model self.new ≡ acted rule (model self.old) }
    {
        if rule.safes {
            self.safe_mode = true;
        } else {
            self.parameters.put(rule.place, rule.number);
        }
    }

    // The activities whose time it is put their numbers, or are missed in safe mode.
    fn release(mut self) -> Satellite
        requires placed { Placed (waiting self.schedule) }
        requires low_missed { self.missed ≤ most }
        ensures { model result ≡ released (model self) }
    {
        self.missed += self
            .schedule
            .release(self.time, self.safe_mode, &mut self.parameters);
        self
    }

    // The command of the frame that came up is obeyed, if the frame is whole.
    fn hear(mut self, frame: Option<&[u64; frame::LENGTH]>) -> Satellite
        requires low_expected { self.expected ≤ most }
        requires low_rejected { self.rejected ≤ most }
        ensures { model result ≡ heeded (decoded (came_up frame.entry)) (model self) }
    {
        self.receive(frame);
        self
    }

    #[inline(never)]
    fn receive(&mut self, frame: Option<&[u64; frame::LENGTH]>)
        requires low_expected { self.old.expected ≤ most }
        requires low_rejected { self.old.rejected ≤ most }
        ensures { model self.new ≡ heeded (decoded (came_up frame.entry)) (model self.old) }
    {
        let Some(telecommand) = frame.and_then(decode) else {
            return;
        };
        self.obey(telecommand);
    }
}
