//! The chapter of a node that a caller holds.
ghost use Rattle.std.specs.Prelude.{◌≡◌, Some, MatchResult};
ghost use Rattle.reg_process.specs.Process.{State};
ghost use Rattle.reg_process.specs.declared.faults.ProcessFault.{ProcessFault as AnyFault};
ghost use Rattle.reg_node.specs.Chapters.{HearsStanding, IsUnheard, TellsStanding};
ghost use Rattle.reg_c.specs.Events.{no_world, refusal_code};
ghost use Rattle.reg_c.specs.NodeChapters.{HearsIn, IsUntold, NodeHearsState, NodeTellsState, TellsOver, told_code};
ghost use Rattle.reg_c.specs.Nodes.{node_state_in};

use crate::choosing::of_kept;
use crate::codes::CLOSED;
use crate::events::code_of_refusal;
use crate::nodes::{HeldNode, KeptNode};
use reg_commands::fill;
use reg_front::FrontEnd;
use reg_node::{Chapter, LoggedNode, ToldFault};
use reg_process::ProcessFault;

/// The bytes are no state of a process.
const NO_STATE: u32 = 80;

/// Why a state isn't heard.
fn code_of_told(fault: ToldFault) -> u32
    ensures { result ≡ told_code fault }
{
    match fault {
        ToldFault::NoProcess => code_of_refusal(ProcessFault::NoProcess),
        ToldFault::NoState => NO_STATE,
        ToldFault::OutOfMemory => code_of_refusal(ProcessFault::OutOfMemory),
    }
}

fn hear_in(chapter: &mut Option<Chapter>, sender: u8, bytes: &[u8]) -> u32
    ensures { HearsIn sender bytes.now chapter.old chapter.new result }
{
    let Some(chapter) = chapter else {
        return CLOSED;
    };
    match chapter.hear(sender, bytes) {
        Ok(()) => 0,
        Err(fault) => code_of_told(fault),
    }
}

/// Hears the bytes of a process's state in the chapter.
pub fn hear_state(held: &mut HeldNode, sender: u8, bytes: &[u8]) -> u32
    ensures { NodeHearsState sender bytes.now held.old held.new result }
{
    hear_in(&mut held.chapter, sender, bytes)
}

fn tell_of<F: FrontEnd>(
    node: &LoggedNode<F>,
    chapter: &mut Chapter,
    is_quiet: bool,
) -> Result<Vec<u8>, u32>
    ensures { MatchResult result
        (λ v. TellsStanding node.now.meeting.node.process.state is_quiet chapter.old v.items chapter.new)
        (λ code. (code ≡ refusal_code AnyFault.OutOfMemory) × (chapter.new ≡ chapter.old)) }
{
    match chapter.tell(node.meeting().node().process(), is_quiet) {
        Ok(bytes) => Ok(bytes),
        Err(_) => Err(code_of_refusal(ProcessFault::OutOfMemory)),
    }
}

fn tell_in(kept: &KeptNode, chapter: &mut Chapter, is_quiet: bool) -> Result<Vec<u8>, u32>
    ensures { MatchResult result
        (λ v. (s : State) × (node_state_in kept.now ≡ Some s)
        × TellsStanding s is_quiet chapter.old v.items chapter.new)
        (λ code. IsUntold (node_state_in kept.now) (Some chapter.old) code × (chapter.new ≡ chapter.old)) }
{
    of_kept!(kept, KeptNode, node => tell_of(node, chapter, is_quiet), Err(CLOSED))
}

/// Puts as many of the bytes that tell how far the node has come into the room as it takes, and tells how many there
/// are. If the result isn't 0, nothing has changed.
pub fn tell_state(held: &mut HeldNode, is_quiet: u32, room: &mut [u8], length: &mut usize) -> u32
    ensures { NodeTellsState is_quiet held.old held.new result room.old room.new length.old length.new }
{
    let Some(chapter) = &mut held.chapter else {
        return CLOSED;
    };
    match tell_in(&held.node, chapter, is_quiet != 0) {
        Ok(bytes) => {
            fill(room, &bytes);
            *length = bytes.len();
            0
        }
        Err(code) => code,
    }
}

/// 1 where the chapter is over, by what the processes told.
pub fn is_over(held: &mut HeldNode) -> u32
    ensures same { held.new ≡ held.old }
    ensures told { TellsOver held.old.chapter result }
{
    match &held.chapter {
        Some(chapter) => { if chapter.is_over() { 1 } else { 0 } }
        None => 0,
    }
}
