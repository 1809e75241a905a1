//! Messages between the nodes of a cluster: how they begin, and what they are to the process that they came to.
//!
//! A message is bytes, in which numbers have their highest byte first.
//!
//! | Bytes | Part |
//! |---|---|
//! | 3 | `TW` and a 3 |
//! | 1, 1, 2 | the front end (0, 1 or 2), how many processes, how many registers |
//! | 4 | the CRC-32 of the registers' names with a space between two |
//! | 8 | the cluster |
//! | 1, 1 | the sender and the receiver |
//! | 8, 4 | `begun` of the sender's log, and its chapter |
//! | 1 | what it brings: 0 frames, 1 a state, 2 a greeting |
//! | the rest | frames, one after another; or a state (`Told`); or a greeting: a byte, and 8 for a number |
//!
//! The byte of a greeting is 1 where its sender wants one back, and else 0. The number says how many bodies it accepted
//! from the receiver.
ghost use Rattle.std.specs.Prelude.{◌≡◌, ◌≢◌, ◌==◌, ◌+◌, ◌≤◌, ◌∷◌, ◌↔◌, if◌then◌else◌, [], drop, length};
ghost use Rattle.std.specs.Prelude.{slice_index_or, take, true, MatchOption};
ghost use Rattle.std.specs.Int.{w16, w32, to_be_bytes};
ghost use Rattle.reg_node.specs.Seals.{crc_over};
ghost use Rattle.reg_node.specs.Messages.{SpellsMessage, SpellsStart, brought as brought_of, differs as differs_of};
ghost use Rattle.reg_node.specs.Messages.{greeting_bytes, heard_then, is_heard as is_heard_of, is_log as is_log_of};
ghost use Rattle.reg_node.specs.Messages.{is_of_key as is_of_key_of, is_sender as is_sender_of, met};
ghost use Rattle.reg_node.specs.Messages.{met_within as met_within_of, names_crc as names_crc_of, start_bytes};

use crate::chapters::{bit, number_at};
use crate::transcripts::seals::{FIRST_CRC, over};
use reg_base::Names;
use reg_text::name_at;
use std::alloc::Allocator;

/// How long the start of a message is.
const WIDTH: usize = 33;

/// How a message begins: of which cluster it is, from whom to whom, and of which log.
#[derive(Clone, Copy)]
pub struct MessageStart {
    /// The front end's number.
    pub front: u8,
    /// How many processes the cluster has.
    pub processes: u8,
    /// How many registers it has.
    pub registers: u16,
    /// The CRC-32 of their names with a space between two.
    pub names: u32,
    /// The cluster.
    pub cluster: u64,
    /// The process that it is from.
    pub sender: u8,
    /// The process that it is for.
    pub receiver: u8,
    /// `begun` of the sender's log.
    pub begun: u64,
    /// The chapter that the sender is in.
    pub chapter: u32,
}

/// The start of a message, and the byte that says what it brings.
#[derive(Clone, Copy)]
pub struct Message {
    pub start: MessageStart,
    pub brings: u8,
}

/// What a message brings.
#[derive(Clone, Copy, Debug, PartialEq, Eq)]
pub enum Brings {
    /// Frames, one after another.
    Frames,
    /// How far its sender has come in its chapter.
    State,
    /// What its sender says where it meets the receiver.
    Greeting,
}

/// What two processes tell each other when they meet.
#[derive(Clone, Copy)]
pub struct Greeting {
    /// Whether its sender wants one back.
    pub is_wanting: bool,
    /// How many bodies it accepted from the receiver.
    pub accepted: u64,
}

/// What a message is to the process that it came to: the first of these that applies.
#[derive(Clone, Copy, Debug, PartialEq, Eq)]
pub enum Met {
    /// Of a cluster with another front end.
    OtherFront,
    /// Of a cluster with another number of processes.
    OtherProcesses,
    /// Of a cluster with other registers.
    OtherRegisters,
    /// Of another cluster.
    OtherCluster,
    /// For another process.
    OtherReceiver,
    /// From no other process of the cluster, or not from the one by whose key it came.
    OtherSender,
    /// From a process that doesn't know yet that its chapter, the one before, is over.
    Late,
    /// From a process in some other chapter.
    Elsewhere,
    /// From a log that was begun anew: another one of its process was heard first.
    BegunAnew,
    /// From the process that it says, but nothing is known that it could bring.
    Unknown,
    /// From the process that it says, with what it brings.
    Peer(Brings),
}

/// The number that these two bytes spell, the highest first.
fn two_at(bytes: &[u8], at: usize) -> u16
    requires { at + 2 ≤ length bytes.now }
    ensures { to_be_bytes w16 result ≡ take 2 (drop at bytes.now) }
{
    let field = &bytes[at..at + 2];
    u16::from_be_bytes([field[0], field[1]])
}

/// The number that these four bytes spell, the highest first.
fn four_at(bytes: &[u8], at: usize) -> u32
    requires { at + 4 ≤ length bytes.now }
    ensures { to_be_bytes w32 result ≡ take 4 (drop at bytes.now) }
{
    let field = &bytes[at..at + 4];
    u32::from_be_bytes([field[0], field[1], field[2], field[3]])
}

/// Whether so many bytes stand there as a start has, with its mark.
fn may_be_start(bytes: &[u8]) -> bool
    ensures { result ≡ true ↔ (length bytes.now ≡ 33) × (take 3 bytes.now ≡ 84 ∷ 87 ∷ 3 ∷ []) }
{
    bytes.len() == WIDTH && bytes[0] == b'T' && bytes[1] == b'W' && bytes[2] == 3
}

impl MessageStart {
    /// The bytes that spell it.
    pub fn bytes(&self) -> [u8; 33]
        ensures { result ≡ start_bytes self.now }
    {
        let registers = self.registers.to_be_bytes();
        let names = self.names.to_be_bytes();
        let cluster = self.cluster.to_be_bytes();
        let begun = self.begun.to_be_bytes();
        let chapter = self.chapter.to_be_bytes();
        [
            b'T',
            b'W',
            3,
            self.front,
            self.processes,
            registers[0],
            registers[1],
            names[0],
            names[1],
            names[2],
            names[3],
            cluster[0],
            cluster[1],
            cluster[2],
            cluster[3],
            cluster[4],
            cluster[5],
            cluster[6],
            cluster[7],
            self.sender,
            self.receiver,
            begun[0],
            begun[1],
            begun[2],
            begun[3],
            begun[4],
            begun[5],
            begun[6],
            begun[7],
            chapter[0],
            chapter[1],
            chapter[2],
            chapter[3],
        ]
    }

    /// The start that these bytes spell, if they spell one.
    pub fn read(bytes: &[u8]) -> Option<MessageStart>
        ensures { MatchOption result ((s : MessageStart) → ¬ SpellsStart bytes.now s) (λ s. SpellsStart bytes.now s) }
    {
        if !may_be_start(bytes) {
            return None;
        }
        Some(MessageStart {
            front: bytes[3],
            processes: bytes[4],
            registers: two_at(bytes, 5),
            names: four_at(bytes, 7),
            cluster: number_at(bytes, 11),
            sender: bytes[19],
            receiver: bytes[20],
            begun: number_at(bytes, 21),
            chapter: four_at(bytes, 29),
        })
    }
}

impl Message {
    /// The message that these bytes are, if they are one.
    pub fn read(bytes: &[u8]) -> Option<Message>
        ensures { MatchOption result ((m : Message) → ¬ SpellsMessage bytes.now m) (λ m. SpellsMessage bytes.now m) }
    {
        if bytes.len() <= WIDTH {
            return None;
        }
        let start = MessageStart::read(&bytes[..WIDTH])?;
        Some(Message {
            start,
            brings: bytes[WIDTH],
        })
    }
}

/// Whether the bytes can be a greeting.
fn may_be_greeting(bytes: &[u8]) -> bool
    ensures { result ≡ true ↔ (length bytes.now ≡ 9) × (slice_index_or bytes.now 0 0 ≤ 1) }
{
    bytes.len() == 9 && bytes[0] <= 1
}

impl Greeting {
    /// The bytes that spell it.
    pub fn bytes(&self) -> [u8; 9]
        ensures { result ≡ greeting_bytes self.now }
    {
        let accepted = self.accepted.to_be_bytes();
        [
            bit(self.is_wanting, 1),
            accepted[0],
            accepted[1],
            accepted[2],
            accepted[3],
            accepted[4],
            accepted[5],
            accepted[6],
            accepted[7],
        ]
    }

    /// The greeting that these bytes spell, if they spell one.
    pub fn read(bytes: &[u8]) -> Option<Greeting>
        ensures { MatchOption result ((g : Greeting) → bytes.now ≢ greeting_bytes g)
            (λ g. bytes.now ≡ greeting_bytes g) }
    {
        if !may_be_greeting(bytes) {
            return None;
        }
        Some(Greeting {
            is_wanting: bytes[0] == 1,
            accepted: number_at(bytes, 1),
        })
    }
}

/// The register of a CRC-32 after a name, and after a space before it, unless it is the first one.
fn over_name(crc: u32, place: usize, name: &[u8]) -> u32
    ensures { result ≡ crc_over crc (if place == 0 then name.now else 32 ∷ name.now) }
{
    if place == 0 {
        over(crc, name)
    } else {
        over(over(crc, b" "), name)
    }
}

/// The CRC-32 of the names with a space between two.
pub fn names_crc<A: Allocator + Copy>(names: &Names<A>) -> u32
    ensures { result ≡ names_crc_of names.now }
{
    let mut crc = FIRST_CRC;
    for place in 0..names.count() {
        crc = over_name(crc, place, name_at(names, place as u16).as_bytes());
    }
    0xffff_ffff - crc
}

/// The first part in which a message isn't one of this cluster to this process.
fn differs(own: &MessageStart, start: &MessageStart) -> Option<Met>
    ensures { result ≡ differs_of own.now start.now }
{
    if start.front != own.front {
        Some(Met::OtherFront)
    } else if start.processes != own.processes {
        Some(Met::OtherProcesses)
    } else if !(start.registers == own.registers && start.names == own.names) {
        Some(Met::OtherRegisters)
    } else if start.cluster != own.cluster {
        Some(Met::OtherCluster)
    } else if start.receiver != own.sender {
        Some(Met::OtherReceiver)
    } else {
        None
    }
}

/// Whether the message came by the key of its sender, or there are no keys.
fn is_of_key(key: Option<u8>, sender: u8) -> bool
    ensures { result ≡ is_of_key_of key sender }
{
    match key {
        Some(key) => key == sender,
        None => true,
    }
}

/// Whether it is from another process of the cluster, and came by its key.
fn is_sender(own: &MessageStart, key: Option<u8>, sender: u8) -> bool
    ensures { result ≡ is_sender_of own.now key sender }
{
    sender < own.processes && sender != own.sender && is_of_key(key, sender)
}

/// Whether no other log of its sender was heard first.
fn is_log(heard: Option<u64>, begun: u64) -> bool
    ensures { result ≡ is_log_of heard begun }
{
    match heard {
        Some(heard) => heard == begun,
        None => true,
    }
}

/// What a message brings by its byte.
fn brought(byte: u8) -> Met
    ensures { result ≡ brought_of byte }
{
    match byte {
        0 => Met::Peer(Brings::Frames),
        1 => Met::Peer(Brings::State),
        2 => Met::Peer(Brings::Greeting),
        _ => Met::Unknown,
    }
}

/// What a message of this cluster to this process is.
fn met_within(own: &MessageStart, key: Option<u8>, heard: Option<u64>, message: &Message) -> Met
    ensures { result ≡ met_within_of own.now key heard message.now }
{
    let start = &message.start;
    if !is_sender(own, key, start.sender) {
        Met::OtherSender
    } else if u64::from(start.chapter) + 1 == u64::from(own.chapter) {
        Met::Late
    } else if start.chapter != own.chapter {
        Met::Elsewhere
    } else if !is_log(heard, start.begun) {
        Met::BegunAnew
    } else {
        brought(message.brings)
    }
}

impl Met {
    /// Whether the log of its sender is then the one that was heard first.
    fn is_heard(self) -> bool
        ensures { result ≡ is_heard_of self }
    {
        matches!(self, Met::Unknown | Met::Peer(_))
    }
}

/// What a message is to the process whose messages begin as `own`. It came by the key of a process, where there are
/// keys. `heard` is `begun` of the log of its sender that was heard first in the chapter, if one was: it is this one
/// from now on, where the message is from the process that it says.
pub fn meet(own: &MessageStart, key: Option<u8>, heard: &mut Option<u64>, message: &Message) -> Met
    ensures told { result ≡ met own.now key heard.old message.now }
    ensures heard { heard.new ≡ heard_then heard.old message.now result }
{
    let told = match differs(own, &message.start) {
        Some(other) => other,
        None => met_within(own, key, *heard, message),
    };
    if told.is_heard() {
        *heard = Some(message.start.begun);
    }
    told
}
