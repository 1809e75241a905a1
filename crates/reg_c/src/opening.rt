//! A node that goes on after the text of its log.
ghost use Rattle.std.specs.Prelude.{◌≡◌, ◌<◌, ◌⊎◌, length, IfErr, IfOk};
ghost use Rattle.reg_front.specs.Table.{start_of};
ghost use Rattle.reg_node.specs.LogTexts.{Journal, log_crc, log_text};
ghost use Rattle.reg_node.specs.Opening.{IsOpenFault};
ghost use Rattle.reg_node.specs.Peers.{first_watched};
ghost use Rattle.reg_c.specs.Nodes.{IsReadAs, IsUnopened, IsUnread, KeptAfter, Opens, first_chapter};

use crate::choosing::kept_under;
use crate::node_codes::{LogRefusal, refusal_of_log, refusal_of_opening};
use crate::nodes::{HeldNode, KeptNode};
use reg_front::Front;
use reg_node::{Chapter, LogFault, LoggedNode, OpenFault, Peers, ReadLog, read_log};
use std::alloc::Global;

/// A node that goes on after the log that was read, under the front end that it names.
fn keep(alloc: Global, read: ReadLog) -> Result<KeptNode, OpenFault>
    ensures kept { read.crc ≡ log_crc read.log → IfOk result (KeptAfter read.log) }
    ensures why { IfErr result
        (IsOpenFault (start_of read.log.front) read.log.shape read.log.id.process read.log.entries) }
{
    kept_under!(read.log.front, KeptNode, LoggedNode::open(alloc, read))
}

/// The log that a text is, with how much of the text it is.
fn read(alloc: Global, text: &[u8], durable: u64) -> Result<ReadLog, LogRefusal>
    ensures read { IfOk result (λ r. IsReadAs text.now durable r.log × (r.whole ≡ length (log_text r.log))
        × (r.crc ≡ log_crc r.log)) }
    ensures why { IfErr result (λ w. (0 < w.code) × IsUnread text.now durable w.code w.place) }
{
    match read_log(alloc, text, durable) {
        Ok(read) => Ok(read),
        Err(fault) => Err(refusal_of_log(fault)),
    }
}

/// A node that goes on after a text, in a chapter of which nobody told anything, with peers of which none was heard;
/// and how many bytes of the text are the log.
#[derive(Drop)]
struct Begun {
    node: KeptNode,
    chapter: Chapter,
    peers: Peers,
    whole: u64,
}

fn begin(alloc: Global, text: &[u8], durable: u64) -> Result<Begun, LogRefusal>
    ensures begun { IfOk result
        (λ b. (j : Journal) × IsReadAs text.now durable j × KeptAfter j b.node × (b.chapter ≡ first_chapter j)
        × (b.peers ≡ first_watched j.shape.processes) × (b.whole ≡ length (log_text j))) }
    ensures why { IfErr result
        (λ w. (0 < w.code) × (IsUnread text.now durable w.code w.place ⊎ IsUnopened text.now durable w.code w.place)) }
{
    let read = read(alloc, text, durable)?;
    let whole = read.whole;
    let processes = read.log.shape.processes();
    let Ok(chapter) = Chapter::new(alloc, processes as u8, read.log.id.process) else {
        return Err(refusal_of_log(LogFault::OutOfMemory));
    };
    let Ok(peers) = Peers::new(alloc, processes) else {
        return Err(refusal_of_log(LogFault::OutOfMemory));
    };
    match keep(alloc, read) {
        Ok(node) => Ok(Begun {
            node,
            chapter,
            peers,
            whole,
        }),
        Err(fault) => Err(refusal_of_opening(fault)),
    }
}

/// Opens a node with the text of its log, of which so many entries were told durable. What was held before is given
/// back. If the result isn't 0, what is held is as it was, but for the place that the fault names.
pub fn open(held: &mut HeldNode, text: &[u8], durable: u64) -> u32
    ensures { Opens text.now durable held.old held.new result }
{
    let alloc = *held.bytes.allocator();
    match begin(alloc, text, durable) {
        Ok(
            Begun {
                node,
                chapter,
                peers,
                whole,
            },
        ) => {
            *held = HeldNode {
                node,
                bytes: Vec::new(alloc),
                output: None,
                chapter: Some(chapter),
                peers: Some(peers),
                course: None,
                whole,
                place: 0,
            };
            0
        }
        Err(refusal) => {
            held.place = refusal.place;
            refusal.code
        }
    }
}
