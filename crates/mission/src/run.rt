ghost use Rattle.std.specs.Prelude.{◌≡◌, ◌<◌, reverse, length, IfOk};
ghost use Rattle.satellite.specs.Fit.{most};
ghost use Rattle.mission.specs.Steps.{Ran};
ghost use Rattle.mission.specs.Story.{reports, Tolerated};

use crate::aloft::{Aloft, Output};
use std::alloc::{AllocError, Global};
use text::Event;

/// Flies the events of a text, in their order, from launch: the output of each tick.
/// Where the hits are tolerated, these are the story's reports.
pub fn fly(heap: Global, events: &[Event]) -> Result<Vec<Output>, AllocError>
    ensures ran { IfOk result (λ v. (b : Aloft) × Ran (reverse events.now) b (reverse v.items)) }
    ensures flies { IfOk result (λ v. Tolerated (reverse events.now) →
        length events.now < most → reverse v.items ≡ reports (reverse events.now)) }
{
    let mut outputs = Vec::new(heap);
    let mut aloft = Aloft::launched();
    for event in events {
        if let Some(output) = aloft.step(*event) {
            outputs.push(output)?;
        }
    }
    Ok(outputs)
}
