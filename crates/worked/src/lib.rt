//! Worked examples: small flights with the outcome that the ground expects of them.

#![tactic(auto)]

#[cfg(test)]
mod tests {
    use frame::{Command, Telecommand, decode, encode};
    use layout::WORDS;
    use memory::Kept;
    use onboard::{MEMORY_LENGTH, launch, tick};
    use refusal::{Lent, Refusal};
    use rules::Rule;
    use schedule::Activity;

    // Words of memory, as docs/INTERFACE.md has them: 1 in safe mode, the first parameter, the first count.
    const SAFE_MODE: usize = 2;

    const PARAMETERS: usize = 5;

    const COUNTS: usize = 278;

    // No instrument reads anything.
    const QUIET: [u16; 16] = [0; 16];

    // A satellite in flight, and what it answered last.
    #[derive(Clone, Copy)]
    struct Craft {
        memory: [u64; MEMORY_LENGTH],
        report: [u64; 8],
        done: Result<(), Refusal>,
    }

    impl Craft {
        fn launched() -> Craft {
            let mut memory = [0; MEMORY_LENGTH];
            let done = launch(&mut memory);
            let report = [0; 8];
            Craft {
                memory,
                report,
                done,
            }
        }

        // One tick.
        fn fly(mut self, readings: [u16; 16], frame: &[u64]) -> Craft {
            self.done = tick(&mut self.memory, &readings, frame, &mut self.report);
            self
        }

        // A tick in which no instrument reads anything and a command comes up.
        fn up(self, number: u64, command: Command) -> Craft {
            self.fly(QUIET, &framed(number, command))
        }

        // A tick in which nothing comes up and instrument 2 reads a value.
        fn read(self, value: u16) -> Craft {
            self.fly(second(value), &[])
        }

        fn quiet(self) -> Craft {
            self.fly(QUIET, &[])
        }

        // A word of memory, as it is read.
        fn word(&self, k: usize) -> u64 {
            let mut words = [0; WORDS];
            Kept::<WORDS>::new(&self.memory).read(&mut words);
            if k < WORDS { words[k] } else { 0 }
        }
    }

    // Instrument 2 reads a value, and the others nothing.
    fn second(value: u16) -> [u16; 16] {
        let mut readings = QUIET;
        readings[2] = value;
        readings
    }

    // The frame of a command; noughts where no frame can carry it, which no test asks for.
    fn framed(number: u64, command: Command) -> [u64; 12] {
        encode(Telecommand { number, command }).unwrap_or([0; 12])
    }

    fn later(release: u64, place: u64, number: u64) -> Command {
        Command::Later {
            activity: Activity {
                release,
                place,
                number,
            },
        }
    }

    // Rule 0 about value 2, limit 10, upward, needing 3 ticks, putting to rest.
    fn watching() -> Command {
        let rule = Rule {
            watches: 2,
            limit: 10,
            upward: true,
            needs: 3,
            safes: true,
            place: 0,
            number: 0,
        };
        Command::SetRule { index: 0, rule }
    }

    // A rule that puts a number at a place in the first tick in which a value is 5 or more.
    fn passing(index: u64, watches: u64, place: u64, number: u64) -> Command {
        let rule = Rule {
            watches,
            limit: 5,
            upward: true,
            needs: 1,
            safes: false,
            place,
            number,
        };
        Command::SetRule { index, rule }
    }

    #[test]
    fn checks_of_frames(rt: HostRuntime) {
        assert_eq!(rt;
            framed(0, Command::Wake),
            [0, 4, 0, 0, 0, 0, 0, 0, 0, 0, 0, 8]
        );
        let mut frame = framed(1, later(5, 20, 7));
        assert_eq!(rt; frame, [1, 1, 5, 20, 7, 0, 0, 0, 0, 0, 0, 133]);
        frame[11] = 132;
        assert_eq!(rt; decode(&frame), None);
    }

    // A frame with another check is as if nothing came.
    #[test]
    fn damaged_frame(rt: HostRuntime) {
        let mut frame = framed(0, Command::Wake);
        frame[11] = 7;
        let craft = Craft::launched().fly(QUIET, &frame);
        assert_eq!(rt; craft.report, [1, 0, 1, 0, 0, 0, 0, 0]);
    }

    #[test]
    fn a_scheduled_put(rt: HostRuntime) {
        let craft = Craft::launched().up(0, Command::Wake);
        assert_eq!(rt; craft.report, [1, 1, 0, 0, 0, 0, 0, 0]);
        let craft = craft.up(1, later(5, 20, 7));
        assert_eq!(rt; craft.report, [2, 2, 0, 0, 0, 1, 0, 0]);
        let craft = craft.up(1, later(5, 20, 7));
        assert_eq!(rt; craft.report, [3, 2, 0, 0, 0, 1, 0, 0]);
        let craft = craft.quiet().quiet();
        assert_eq!(rt; craft.report, [5, 2, 0, 0, 0, 0, 0, 0]);
        assert_eq!(rt; craft.word(PARAMETERS + 20), 7);
    }

    #[test]
    fn a_later_for_now_is_rejected(rt: HostRuntime) {
        let craft = Craft::launched()
            .up(0, Command::Wake)
            .up(1, later(5, 20, 7))
            .up(2, later(3, 20, 9));
        assert_eq!(rt; craft.report, [3, 3, 0, 1, 0, 1, 0, 0]);
        let craft = craft.quiet().quiet();
        assert_eq!(rt; craft.word(PARAMETERS + 20), 7);
    }

    #[test]
    fn missed_at_rest(rt: HostRuntime) {
        let craft = Craft::launched()
            .up(0, Command::Wake)
            .up(1, later(5, 20, 7))
            .up(2, Command::Sleep);
        let craft = craft.quiet().quiet();
        assert_eq!(rt; craft.report, [5, 3, 1, 0, 1, 0, 0, 0]);
        assert_eq!(rt; craft.word(PARAMETERS + 20), 0);
    }

    #[test]
    fn thirty_two_wait(rt: HostRuntime) {
        let mut craft = Craft::launched().up(0, Command::Wake);
        for k in 0..32 {
            craft = craft.up(k + 1, later(40, 16 + k, k + 100));
        }
        assert_eq!(rt; craft.report, [33, 33, 0, 0, 0, 32, 0, 0]);
        craft = craft.up(33, later(40, 20, 1));
        assert_eq!(rt; craft.report, [34, 34, 0, 1, 0, 32, 0, 0]);
        for _ in 0..6 {
            craft = craft.quiet();
        }
        assert_eq!(rt; craft.report, [40, 34, 0, 1, 0, 0, 0, 0]);
        assert_eq!(rt; craft.word(PARAMETERS + 16), 100);
        assert_eq!(rt; craft.word(PARAMETERS + 47), 131);
    }

    #[test]
    fn past_its_limit_for_three_ticks(rt: HostRuntime) {
        let craft = Craft::launched().up(0, Command::Wake).up(1, watching());
        let craft = craft.read(12).read(9).read(11).read(13);
        assert_eq!(rt; craft.word(SAFE_MODE), 0);
        let craft = craft.read(10);
        assert_eq!(rt; craft.report, [7, 2, 1, 0, 0, 0, 0, 0]);
        let craft = craft.up(2, Command::Wake).read(12).read(13).read(10);
        assert_eq!(rt; craft.word(SAFE_MODE), 1);
        let craft = craft.read(14);
        assert_eq!(rt; craft.word(COUNTS), 4);
        let craft = craft.fly(second(14), &framed(3, watching()));
        assert_eq!(rt; craft.word(COUNTS), 0);
    }

    // `wake` comes up in the very tick in which the rule puts it to rest. It wakes, since the frame is looked at last; and
    // though the value stays past the limit the rule does nothing more: it acts once in a stretch.
    #[test]
    fn woken_in_the_tick_of_the_rule(rt: HostRuntime) {
        let craft = Craft::launched().up(0, Command::Wake).up(1, watching());
        let craft = craft.read(12).read(9).read(11).read(13);
        assert_eq!(rt; craft.word(COUNTS), 2);
        let craft = craft.fly(second(10), &framed(2, Command::Wake));
        assert_eq!(rt; craft.report, [7, 3, 0, 0, 0, 0, 0, 0]);
        assert_eq!(rt; craft.word(COUNTS), 3);
        let craft = craft.read(14);
        assert_eq!(rt; craft.report, [8, 3, 0, 0, 0, 0, 0, 0]);
        assert_eq!(rt; craft.word(COUNTS), 4);
    }

    // Rule 1 puts what rule 2 watches: the same tick. Rule 0 watches what rule 1 puts: the next tick.
    #[test]
    fn each_after_the_ones_before_it(rt: HostRuntime) {
        let craft = Craft::launched()
            .up(0, passing(0, 20, 22, 70))
            .up(1, passing(1, 2, 20, 50))
            .up(2, passing(2, 20, 21, 60));
        let craft = craft.read(5);
        assert_eq!(rt; craft.word(PARAMETERS + 20), 50);
        assert_eq!(rt; craft.word(PARAMETERS + 21), 60);
        assert_eq!(rt; craft.word(PARAMETERS + 22), 0);
        assert_eq!(rt; craft.quiet().word(PARAMETERS + 22), 70);
    }

    #[test]
    fn numbers_and_places_of_refusals(rt: HostRuntime) {
        let places = [Lent::Memory, Lent::Readings, Lent::Frame, Lent::Report].map(
            |lent| Refusal::Length(lent).place(),
        );
        assert_eq!(rt; places, [0, 1, 2, 3]);
        assert_eq!(rt; Refusal::Length(Lent::Frame).number(), 1);
        assert_eq!(rt; Refusal::Unfit { word: 70 }.number(), 2);
        assert_eq!(rt; Refusal::Unfit { word: 70 }.place(), 70);
        assert_eq!(rt; Refusal::Unreadable { line: 4 }.number(), 3);
        assert_eq!(rt; Refusal::Unreadable { line: 4 }.place(), 4);
    }

    #[test]
    fn refusals_change_nothing(rt: HostRuntime) {
        let craft = Craft::launched()
            .up(0, Command::Wake)
            .up(1, later(9, 20, 7));
        let mut memory = craft.memory;
        let mut report = [1, 2, 3, 4, 5, 6, 7, 8];
        assert_eq!(rt;
            tick(&mut [], &QUIET, &[], &mut report),
            Err(Refusal::Length(Lent::Memory))
        );
        assert_eq!(rt;
            tick(&mut memory, &[0; 15], &[], &mut report),
            Err(Refusal::Length(Lent::Readings))
        );
        assert_eq!(rt;
            tick(&mut memory, &QUIET, &[0; 11], &mut report),
            Err(Refusal::Length(Lent::Frame))
        );
        assert_eq!(rt;
            tick(&mut memory, &QUIET, &[], &mut [0; 9]),
            Err(Refusal::Length(Lent::Report))
        );
        assert!(rt; memory == craft.memory);
        memory[70] = 2;
        memory[WORDS + 70] = 2;
        let hit = memory;
        assert_eq!(rt;
            tick(&mut memory, &QUIET, &[], &mut report),
            Err(Refusal::Unfit { word: 70 })
        );
        assert!(rt; memory == hit);
        assert_eq!(rt; report, [1, 2, 3, 4, 5, 6, 7, 8]);
    }
}
