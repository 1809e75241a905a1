//! What a caller sees of a process that it holds.
ghost use Rattle.std.specs.Prelude.{◌≡◌};
ghost use Rattle.reg_c.specs.Processes.{peer_part, peer_part_of, process_look_of};

use reg_process::Known;

/// What a process has.
#[derive(Clone, Copy)]
pub enum StatePart {
    /// The time of its clock.
    Clock,
    /// How many casts it has delivered.
    Delivered,
    /// How many of its own casts are not delivered here.
    Unsettled,
    /// How many data frames are not acknowledged, over all links.
    Pending,
    /// 0 where no operation runs, 1 where one waits for its cast, 2 where one waits for all own casts.
    Running,
    /// The value of a register in its copy.
    Register,
}

/// What to look at.
#[derive(Clone, Copy)]
pub enum ProcessLook {
    OfState(StatePart),
    /// The value of the last step's reply, 0 where it gave none.
    ReplyValue,
    /// The place of the last step's reply: how many casts it counts with.
    ReplyPlace,
}

/// What a process knows of another one.
#[derive(Clone, Copy)]
pub enum PeerPart {
    First,
    Next,
    Expected,
    Seen,
}

/// What the number says to look at.
pub fn process_look(what: u32) -> Option<ProcessLook>
    ensures { result ≡ process_look_of what }
{
    let look = match what {
        0 => ProcessLook::OfState(StatePart::Clock),
        1 => ProcessLook::OfState(StatePart::Delivered),
        2 => ProcessLook::OfState(StatePart::Unsettled),
        3 => ProcessLook::OfState(StatePart::Pending),
        4 => ProcessLook::OfState(StatePart::Running),
        5 => ProcessLook::OfState(StatePart::Register),
        6 => ProcessLook::ReplyValue,
        7 => ProcessLook::ReplyPlace,
        _ => return None,
    };
    Some(look)
}

/// What of another process the number says to look at.
pub fn peer_look(what: u32) -> Option<PeerPart>
    ensures { result ≡ peer_part_of what }
{
    match what {
        0 => Some(PeerPart::First),
        1 => Some(PeerPart::Next),
        2 => Some(PeerPart::Expected),
        3 => Some(PeerPart::Seen),
        _ => None,
    }
}

/// A part of what a process knows of another one.
pub fn of_known(part: PeerPart, known: &Known) -> u64
    ensures { result ≡ peer_part part known.now }
{
    match part {
        PeerPart::First => known.first,
        PeerPart::Next => known.next,
        PeerPart::Expected => known.expected,
        PeerPart::Seen => known.seen,
    }
}
