//! Whether each process calls and is answered in turn.
ghost use Rattle.std.specs.Prelude.{◌≡◌, ◌⊎◌, ℕ, None, Some, IfErr, OnOk, slice_get, ◌<◌};
ghost use Rattle.reg_observed.specs.Turns.{first_wrong, none_running, running_after, wrong_turn};
ghost use Rattle.reg_observed.specs.declared.events.Event.{Event as AnyEvent};
ghost use Rattle.reg_observed.specs.declared.faults.Why.{Why as AnyWhy};

use crate::events::{Event, Moment};
use crate::faults::{ReadFault, Why};
use std::alloc::Global;

/// Why the event may not come next, where its process has this call under way or none.
fn why_not(event: Event, running: Option<Event>) -> Option<Why>
    ensures { result ≡ wrong_turn event running }
{
    match running {
        None => match event.moment {
            Moment::Invoke => None,
            Moment::Ok | Moment::Fail | Moment::Unequal | Moment::Info => Some(Why::Idle),
        },
        Some(call) => match event.moment {
            Moment::Invoke => Some(Why::Busy),
            Moment::Ok | Moment::Fail | Moment::Unequal | Moment::Info => {
                if event.act == call.act && event.key == call.key {
                    None
                } else {
                    Some(Why::Other)
                }
            }
        },
    }
}

/// The call that its process has under way after the event.
fn left_running(event: Event) -> Option<Event>
    ensures { result ≡ running_after event }
{
    match event.moment {
        Moment::Invoke => Some(event),
        Moment::Ok | Moment::Fail | Moment::Unequal | Moment::Info => None,
    }
}

/// Whether each process, of this many, calls only while it has no call under way, and each other event is of the call
/// that its process has under way.
///
/// # Errors
///
/// `Line` names the first line of which that does not hold.
pub(crate) fn check_turns(
    global: Global,
    processes: usize,
    events: &[Event],
) -> Result<(), ReadFault>
    requires { (k : ℕ) (e : AnyEvent) → slice_get events.now k ≡ Some e → e.process < processes }
    ensures right { OnOk result (first_wrong (none_running processes) events.now ≡ None) }
    ensures wrong { IfErr result
        (λ f. (f ≡ ReadFault.OutOfMemory)
        ⊎ ((line : ℕ) × (why : AnyWhy) × (f ≡ ReadFault.Line line why)
        × (first_wrong (none_running processes) events.now ≡ Some (line, why)))) }
{
    let mut running = vec![in global; None; processes]?;
    for event in events {
        let process = event.process as usize;
        if let Some(why) = why_not(*event, running[process]) {
            return Err(ReadFault::Line {
                line: event.line,
                why,
            });
        }
        running[process] = left_running(*event);
    }
    Ok(())
}
