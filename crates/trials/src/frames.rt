//! Frames of commands, lawful or not.
use crate::story::check_of;

/// A command as a frame carries it: its kind, whatever it is, and its nine arguments.
pub type Order = [u64; 10];

/// The frame of a command with this number, its check worked out.
pub fn framed(number: u64, order: Order) -> [u64; 12] {
    let mut frame = [0; 12];
    frame[0] = number;
    frame[1..11].copy_from_slice(&order);
    frame[11] = check_of(&frame);
    frame
}
