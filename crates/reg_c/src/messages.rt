//! How messages between nodes begin, and what they are to the process that they came to.
ghost use Rattle.std.specs.Prelude.{◌≡◌, ◌<◌, is_some, true, None, IfErr, IfOk, MatchOption};
ghost use Rattle.reg_node.specs.Messages.{greeting_bytes};
ghost use Rattle.reg_commands.specs.Lent.{filled};
ghost use Rattle.reg_c.specs.Fronts.{front_at};
ghost use Rattle.reg_c.specs.Messages.{IsOwn, IsUnstarted, StartsMessage, TellsGreeting, TellsMet, TellsStart};
ghost use Rattle.reg_c.specs.Messages.{first_of as first_of_heard, greeting_by, heard_by, kept, key_in, met_by};
ghost use Rattle.reg_c.specs.Messages.{met_code, met_row, no_row as no_row_is};

use crate::beginning::{LogRow, names_in, shape_of_names};
use crate::codes::{NO_FRONT, NO_SHAPE};
use crate::node_codes::{NO_CHAPTER, NO_GREETING};
use reg_commands::fill;
use reg_node::{Greeting, Message, MessageStart, Met, meet, names_crc};
use std::alloc::Global;

/// What a message is, what it brings, and the numbers that it begins with.
#[repr(C)]
#[derive(Clone, Copy)]
pub struct MetRow {
    /// The cluster.
    pub cluster: u64,
    /// Of the sender's log.
    pub begun: u64,
    /// The CRC-32 of the registers' names.
    pub names: u32,
    /// The chapter that the sender is in.
    pub chapter: u32,
    /// 0 where it is from another process of the cluster, with what it brings.
    pub met: u32,
    /// How many registers the cluster has.
    pub registers: u16,
    /// The front end's number.
    pub front: u8,
    /// How many processes the cluster has.
    pub processes: u8,
    /// The process that it is from.
    pub sender: u8,
    /// The process that it is for.
    pub receiver: u8,
    /// 0 for frames, 1 for a state, 2 for a greeting.
    pub brings: u8,
}

/// The log of a process that was heard first.
#[repr(C)]
#[derive(Clone, Copy)]
pub struct HeardRow {
    /// Of that log.
    pub begun: u64,
    /// 0 where none was heard.
    pub is_heard: u32,
}

/// What a process tells another one when they meet.
#[repr(C)]
#[derive(Clone, Copy)]
pub struct GreetingRow {
    /// How many bodies it accepted from the other one.
    pub accepted: u64,
    /// 1 where it wants a greeting back, else 0.
    pub is_wanting: u32,
}

/// The number of a front end, in a byte.
fn front_byte(number: u32) -> Option<u8>
    ensures { MatchOption result (front_at number ≡ None) (λ n. (n ≡ number) × (is_some (front_at number) ≡ true)) }
{
    match number {
        0 => Some(0),
        1 => Some(1),
        2 => Some(2),
        _ => None,
    }
}

/// How a message of the process whose log this row says begins.
fn start_of(alloc: Global, row: &LogRow, text: &[u8], to: u8) -> Result<MessageStart, u32>
    ensures made { IfOk result (λ s. StartsMessage row.now text.now to s) }
    ensures why { IfErr result (λ code. (0 < code) × IsUnstarted row.now text.now code) }
{
    let Some(front) = front_byte(row.front) else {
        return Err(NO_FRONT);
    };
    let names = names_in(alloc, text)?;
    let shape = shape_of_names(row.processes, row.process, &names)?;
    if row.chapter > 0xffff_ffff {
        return Err(NO_CHAPTER);
    }
    Ok(MessageStart {
        front,
        processes: shape.processes() as u8,
        registers: names.count() as u16,
        names: names_crc(&names),
        cluster: row.cluster,
        sender: row.process,
        receiver: to,
        begun: row.begun,
        chapter: row.chapter as u32,
    })
}

/// Puts as many of the 33 bytes of the start of a message to the process `to` into the room as it takes: all but the
/// byte that says what it brings. The names have one space between them. If the result isn't 0, nothing has changed.
#[unsafe(no_mangle)]
pub extern "C" fn tellwydar_message_start(
    alloc: Global,
    row: &LogRow,
    names: &[u8],
    to: u8,
    room: &mut [u8],
) -> u32
    ensures { TellsStart row.now names.now to result room.old room.new }
{
    match start_of(alloc, row, names, to) {
        Ok(start) => {
            fill(room, &start.bytes());
            0
        }
        Err(code) => code,
    }
}

/// The start that these bytes spell, if it is of a cluster of so many processes.
fn own_of(bytes: &[u8], processes: usize) -> Option<MessageStart>
    ensures { MatchOption result ((s : MessageStart) → ¬ IsOwn bytes.now processes s)
        (λ s. IsOwn bytes.now processes s) }
{
    let own = MessageStart::read(bytes)?;
    (usize::from(own.processes) == processes).then_some(own)
}

/// The process by whose key a message came, if there are keys.
fn key_of(key: u32) -> Option<u8>
    ensures { result ≡ key_in key }
{
    u8::try_from(key).ok()
}

/// The log of a process that was heard first.
fn first_of(heard: &[HeardRow], sender: u8) -> Option<u64>
    ensures { result ≡ first_of_heard heard.now sender }
{
    let sender = usize::from(sender);
    if sender < heard.len() && heard[sender].is_heard != 0 {
        Some(heard[sender].begun)
    } else {
        None
    }
}

/// Keeps which log was heard first.
fn keep(heard: &mut [HeardRow], sender: u8, first: Option<u64>)
    ensures { heard.new ≡ kept heard.old sender first }
{
    let sender = usize::from(sender);
    if let Some(begun) = first
        && sender < heard.len()
    {
        heard[sender] = HeardRow { begun, is_heard: 1 };
    }
}

fn code_of_met(told: Met) -> u32
    ensures { result ≡ met_code told }
{
    match told {
        Met::Peer(_) => 0,
        Met::Late => 1,
        Met::Elsewhere => 2,
        Met::OtherFront => 3,
        Met::OtherProcesses => 4,
        Met::OtherRegisters => 5,
        Met::OtherCluster => 6,
        Met::OtherReceiver => 7,
        Met::OtherSender => 8,
        Met::BegunAnew => 9,
        Met::Unknown => 10,
    }
}

fn row_of(message: &Message, told: Met) -> MetRow
    ensures { result ≡ met_row message.now told }
{
    let start = &message.start;
    MetRow {
        cluster: start.cluster,
        begun: start.begun,
        names: start.names,
        chapter: start.chapter,
        met: code_of_met(told),
        registers: start.registers,
        front: start.front,
        processes: start.processes,
        sender: start.sender,
        receiver: start.receiver,
        brings: message.brings,
    }
}

/// The row of bytes that are no message.
fn no_row() -> MetRow
    ensures { result ≡ no_row_is }
{
    MetRow {
        cluster: 0,
        begun: 0,
        names: 0,
        chapter: 0,
        met: 11,
        registers: 0,
        front: 0,
        processes: 0,
        sender: 0,
        receiver: 0,
        brings: 0,
    }
}

/// What a message is, by the logs that were heard first.
fn meet_in(own: &MessageStart, key: Option<u8>, heard: &mut [HeardRow], message: &Message) -> MetRow
    ensures told { result ≡ met_row message.now (met_by own.now key heard.old message.now) }
    ensures heard { heard.new ≡ heard_by own.now key heard.old message.now }
{
    let sender = message.start.sender;
    let mut first = first_of(heard, sender);
    let told = meet(own, key, &mut first, message);
    keep(heard, sender, first);
    row_of(message, told)
}

/// Tells what a message is to the process whose messages begin as `own`, whichever process that one is for. A key below
/// 256 is that of the process by whose key the message came; else there are no keys. `heard` has a row for each process
/// of the cluster, by its number, of its log that was heard first: this one from now on, where the message is from the
/// process that it says. If the result isn't 0, `own` is no start, or the rows are more or fewer, and nothing has
/// changed.
#[unsafe(no_mangle)]
pub extern "C" fn tellwydar_message_met(
    own: &[u8],
    key: u32,
    message: &[u8],
    heard: &mut [HeardRow],
    row: &mut MetRow,
) -> u32
    ensures { TellsMet own.now key message.now heard.old heard.new row.old row.new result }
{
    let Some(own) = own_of(own, heard.len()) else {
        return NO_SHAPE;
    };
    *row = match Message::read(message) {
        Some(message) => meet_in(&own, key_of(key), heard, &message),
        None => no_row(),
    };
    0
}

/// Puts as many of the nine bytes of a greeting into the room as it takes. Its sender wants one back, unless
/// `is_wanting` is 0.
#[unsafe(no_mangle)]
pub extern "C" fn tellwydar_message_greet(is_wanting: u32, accepted: u64, room: &mut [u8])
    ensures { room.new ≡ filled (greeting_bytes (greeting_by is_wanting accepted)) room.old }
{
    let greeting = Greeting {
        is_wanting: is_wanting != 0,
        accepted,
    };
    fill(room, &greeting.bytes());
}

/// Puts the greeting into the row that these bytes spell. If the result isn't 0, they spell none, and nothing has
/// changed.
#[unsafe(no_mangle)]
pub extern "C" fn tellwydar_message_greeting(bytes: &[u8], row: &mut GreetingRow) -> u32
    ensures { TellsGreeting bytes.now row.old row.new result }
{
    match Greeting::read(bytes) {
        Some(greeting) => {
            *row = GreetingRow {
                accepted: greeting.accepted,
                is_wanting: u32::from(greeting.is_wanting),
            };
            0
        }
        None => NO_GREETING,
    }
}
