//! Telecommand frames: twelve numbers below 2^32, the last of them a check over the others.

#![tactic(auto)]

ghost use Rattle.std.specs.Prelude.{◌≡◌, true, Some};
ghost use Rattle.frame.specs.Frame.{all_small, check_of, is_whole, command_of, decoded, kind_of, arguments_of, padded, is_kind, body, encodable, encoded, encoding};

use rules::Rule;
use schedule::Activity;

/// How many numbers a frame has.
pub const LENGTH: usize = 12;

// The largest number that a frame can carry, and the modulus of its check.
const LARGEST: u64 = 0xffff_ffff;

const MODULUS: u64 = 65521;

// Kinds of commands are counted from 0; there are so many.
const KINDS: u64 = 6;

/// What a frame commands.
#[derive(Clone, Copy, PartialEq, Eq, Debug, Drop)]
pub enum Command {
    /// A number is put at a place among the parameters.
    Put { place: u64, number: u64 },
    /// An activity waits for its time.
    Later { activity: Activity },
    /// Nothing waits any more.
    Forget,
    /// Safe mode begins.
    Sleep,
    /// Safe mode ends.
    Wake,
    /// A rule is set, and begins from 0.
    SetRule { index: u64, rule: Rule },
    /// A command of no known kind: it can never be done.
    Unknown { kind: u64 },
}

/// A command with the number that the ground gave it, counting from 0.
#[derive(Clone, Copy, PartialEq, Eq, Debug, Drop)]
pub struct Telecommand {
    pub number: u64,
    pub command: Command,
}

/// The command that a whole frame carries; nothing where the frame is not whole. An `Option` and no `TryFrom`, here
/// and in `encode`: of what is not whole there is nothing more to say.
pub fn decode(frame: &[u64; LENGTH]) -> Option<Telecommand>
    ensures { result ≡ decoded frame.now }
{
    if !is_whole(frame) {
        return None;
    }
    Some(Telecommand {
        number: frame[0],
        command: command_in(frame),
    })
}

/// The frame of a telecommand; nothing where a number of it is 2^32 or more, or where an
/// unknown command has the kind of a known one.
pub fn encode(telecommand: Telecommand) -> Option<[u64; LENGTH]>
    ensures value { result ≡ encoding telecommand }
    ensures back { encodable telecommand ≡ true → decoded (encoded telecommand) ≡ Some telecommand }
{
    let mut frame = unchecked(telecommand);
    if !small(&frame) || !of_its_kind(telecommand.command) {
        return None;
    }
    frame[11] = check(&frame);
    Some(frame)
}

// Whether its numbers are small enough, and the last of them is the check over the others.
fn is_whole(frame: &[u64; LENGTH]) -> bool
    ensures { result ≡ is_whole frame.now }
{
    small(frame) && frame[11] == check(frame)
}

// Whether a frame can carry these numbers.
fn small(numbers: &[u64; LENGTH]) -> bool
    ensures { result ≡ all_small numbers.now }
{
    numbers.iter().all(|x| *x <= LARGEST)
}

// Each of the first eleven numbers times one more than its place, added, modulo 65,521.
fn check(frame: &[u64; LENGTH]) -> u64
    requires { all_small frame.now ≡ true }
    ensures { result ≡ check_of frame.now }
{
    let mut sum = 0;
    for (i, x) in frame[..11].iter().enumerate() {
        sum += (i as u64 + 1) * x;
    }
    sum % MODULUS
}

// A frame says by a number what it commands: here and in `kind_of` stands which number that is.
fn command_in(frame: &[u64; LENGTH]) -> Command
    ensures { result ≡ command_of frame.now }
{
    let [_, kind, a, b, c, d, e, f, g, h, _, _] = *frame;
    match kind {
        0 => Command::Put {
            place: a,
            number: b,
        },
        1 => Command::Later {
            activity: Activity::from([a, b, c]),
        },
        2 => Command::Forget,
        3 => Command::Sleep,
        4 => Command::Wake,
        // A mark is set by 1 and by nothing else.
        5 => Command::SetRule {
            index: a,
            rule: Rule::from([b, c, d, e, f, g, h]),
        },
        kind => Command::Unknown { kind },
    }
}

// The frame without its check.
fn unchecked(telecommand: Telecommand) -> [u64; LENGTH]
    ensures { result ≡ body telecommand }
{
    let Telecommand { number, command } = telecommand;
    let [a, b, c, d, e, f, g, h, i] = arguments_of(command);
    [number, kind_of(command), a, b, c, d, e, f, g, h, i, 0]
}

// The number by which a frame says what it commands.
fn kind_of(command: Command) -> u64
    ensures { result ≡ kind_of command }
{
    match command {
        Command::Put { .. } => 0,
        Command::Later { .. } => 1,
        Command::Forget => 2,
        Command::Sleep => 3,
        Command::Wake => 4,
        Command::SetRule { .. } => 5,
        Command::Unknown { kind } => kind,
    }
}

// What a frame says of it besides, and noughts behind that.
fn arguments_of(command: Command) -> [u64; 9]
    ensures { result ≡ padded (arguments_of command) }
{
    match command {
        Command::Put { place, number } => [place, number, 0, 0, 0, 0, 0, 0, 0],
        Command::Later { activity } => {
            let [release, place, number] = <[u64; 3]>::from(activity);
            [release, place, number, 0, 0, 0, 0, 0, 0]
        }
        Command::SetRule { index, rule } => {
            let [a, b, c, d, e, f, g] = <[u64; 7]>::from(rule);
            [index, a, b, c, d, e, f, g, 0]
        }
        _ => [0; 9],
    }
}

// Whether its kind in a frame would be read as this command.
fn of_its_kind(command: Command) -> bool
    ensures { result ≡ is_kind command }
{
    match command {
        Command::Unknown { kind } => kind >= KINDS,
        _ => true,
    }
}
