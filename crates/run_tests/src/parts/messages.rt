//! How messages between nodes begin, and what they are to the process that they came to, as worked by hand.
use crate::demands::{demand, demand_same};
use reg_node::{Brings, Greeting, Message, MessageStart, Met, meet, names_crc};
use reg_text::{Lines, read_names};
use std::alloc::Global;
use std::process::Abort;

/// A message of process 1 in chapter 4 of cluster 5, which has three processes and the registers x and y. Its log was
/// begun as 9. It is for process 2, and brings frames. (By Python zlib.crc32(b"x y") is 19fe0dc0.)
const GOOD: &[u8; 36] = &[
    0x54, 0x57, 3, 0, 3, 0, 2, 0x19, 0xfe, 0x0d, 0xc0, 0, 0, 0, 0, 0, 0, 0, 5, 1, 2, 0, 0, 0, 0, 0,
    0, 0, 9, 0, 0, 0, 4, 0, 0xaa, 0xbb,
];

/// A start in which each byte is another one.
const STARTS: &[u8] = &[
    0x54, 0x57, 3, 4, 5, 6, 7, 8, 9, 10, 11, 12, 13, 14, 15, 16, 17, 18, 19, 20, 21, 22, 23, 24,
    25, 26, 27, 28, 29, 30, 31, 32, 33,
];

/// What that start says.
const START: MessageStart = MessageStart {
    front: 4,
    processes: 5,
    registers: 0x0607,
    names: 0x0809_0a0b,
    cluster: 0x0c0d_0e0f_1011_1213,
    sender: 20,
    receiver: 21,
    begun: 0x1617_1819_1a1b_1c1d,
    chapter: 0x1e1f_2021,
};

/// The numbers of a start.
fn numbers(start: &MessageStart) -> [u64; 9] {
    let MessageStart {
        front,
        processes,
        registers,
        names,
        cluster,
        sender,
        receiver,
        begun,
        chapter,
    } = *start;
    [
        u64::from(front),
        u64::from(processes),
        u64::from(registers),
        u64::from(names),
        cluster,
        u64::from(sender),
        u64::from(receiver),
        begun,
        u64::from(chapter),
    ]
}

#[test]
fn starts_are_read_as_they_are_spelled(rt: HostRuntime) {
    let read = MessageStart::read(STARTS).expect(&rt, "a start");
    demand_same(&rt, &STARTS, &numbers(&read), &numbers(&START));
    demand_same(&rt, &STARTS, &START.bytes().as_slice(), &STARTS);
    for bytes in [&STARTS[..32], &GOOD[..34], &STARTS[1..], &[]] {
        demand(&rt, &bytes, MessageStart::read(bytes).is_none());
    }
}

/// A byte of the message that is put in another's place, the key it came by, which log was heard before, what it is,
/// and which log was heard then.
type Row = (usize, u8, Option<u8>, Option<u64>, Option<Met>, Option<u64>);

const ROWS: &[Row] = &[
    // (nothing is changed)
    (33, 0, None, None, Some(Met::Peer(Brings::Frames)), Some(9)),
    (
        33,
        0,
        Some(1),
        Some(9),
        Some(Met::Peer(Brings::Frames)),
        Some(9),
    ),
    (
        33,
        1,
        None,
        Some(9),
        Some(Met::Peer(Brings::State)),
        Some(9),
    ),
    (
        33,
        2,
        None,
        None,
        Some(Met::Peer(Brings::Greeting)),
        Some(9),
    ),
    (33, 3, None, None, Some(Met::Unknown), Some(9)),
    (33, 255, Some(1), None, Some(Met::Unknown), Some(9)),
    (35, 0, None, None, Some(Met::Peer(Brings::Frames)), Some(9)),
    // (the mark)
    (0, 0x55, None, None, None, None),
    (1, 0x58, None, Some(7), None, Some(7)),
    (2, 2, None, None, None, None),
    // (the cluster)
    (3, 1, None, None, Some(Met::OtherFront), None),
    (4, 4, None, None, Some(Met::OtherProcesses), None),
    (5, 1, None, None, Some(Met::OtherRegisters), None),
    (6, 1, None, Some(9), Some(Met::OtherRegisters), Some(9)),
    (7, 0x18, None, None, Some(Met::OtherRegisters), None),
    (10, 0xc1, None, None, Some(Met::OtherRegisters), None),
    (11, 1, None, None, Some(Met::OtherCluster), None),
    (18, 6, None, None, Some(Met::OtherCluster), None),
    // (from whom to whom)
    (20, 0, None, None, Some(Met::OtherReceiver), None),
    (20, 1, Some(0), None, Some(Met::OtherReceiver), None),
    (19, 2, None, None, Some(Met::OtherSender), None),
    (19, 3, None, None, Some(Met::OtherSender), None),
    (19, 9, Some(9), None, Some(Met::OtherSender), None),
    (33, 0, Some(0), Some(9), Some(Met::OtherSender), Some(9)),
    (19, 0, Some(1), None, Some(Met::OtherSender), None),
    (
        19,
        0,
        Some(0),
        None,
        Some(Met::Peer(Brings::Frames)),
        Some(9),
    ),
    // (the chapter)
    (32, 3, None, Some(7), Some(Met::Late), Some(7)),
    (32, 3, Some(0), None, Some(Met::OtherSender), None),
    (32, 2, None, None, Some(Met::Elsewhere), None),
    (32, 5, None, None, Some(Met::Elsewhere), None),
    (29, 1, None, None, Some(Met::Elsewhere), None),
    // (the log)
    (33, 0, None, Some(8), Some(Met::BegunAnew), Some(8)),
    (28, 8, None, Some(9), Some(Met::BegunAnew), Some(9)),
    (21, 1, None, Some(9), Some(Met::BegunAnew), Some(9)),
    (33, 3, None, Some(8), Some(Met::BegunAnew), Some(8)),
    (
        28,
        8,
        None,
        Some(8),
        Some(Met::Peer(Brings::Frames)),
        Some(8),
    ),
];

/// How the messages of process 2 begin, to whomever.
fn own(chapter: u32) -> MessageStart {
    MessageStart {
        front: 0,
        processes: 3,
        registers: 2,
        names: 0x19fe_0dc0,
        cluster: 5,
        sender: 2,
        receiver: 0,
        begun: 1,
        chapter,
    }
}

/// What a message is, and which log was heard then.
fn met(
    own: &MessageStart,
    key: Option<u8>,
    heard: Option<u64>,
    bytes: &[u8],
) -> (Option<Met>, Option<u64>) {
    let mut first = heard;
    let told = match Message::read(bytes) {
        Some(message) => Some(meet(own, key, &mut first, &message)),
        None => None,
    };
    (told, first)
}

/// The message with another byte in this place.
fn with_byte(message: &[u8; 36], place: usize, byte: u8) -> [u8; 36] {
    let mut bytes = *message;
    if place < 36 {
        bytes[place] = byte;
    }
    bytes
}

#[test]
fn a_message_is_what_its_bytes_say(rt: HostRuntime) {
    for row in ROWS {
        let (place, byte, key, heard, told, then) = *row;
        let bytes = with_byte(GOOD, place, byte);
        demand_same(&rt, row, &met(&own(4), key, heard, &bytes), &(told, then));
    }
    for bytes in [&[], &GOOD[..32], &GOOD[..33]] {
        demand_same(&rt, &bytes, &met(&own(4), None, None, bytes), &(None, None));
    }
    let whole = (Some(Met::Peer(Brings::Frames)), Some(9));
    demand_same(&rt, &34, &met(&own(4), None, None, &GOOD[..34]), &whole);
}

/// The same message, of the greatest chapter that there is.
const OF_THE_LAST_CHAPTER: &[u8] = &[
    0x54, 0x57, 3, 0, 3, 0, 2, 0x19, 0xfe, 0x0d, 0xc0, 0, 0, 0, 0, 0, 0, 0, 5, 1, 2, 0, 0, 0, 0, 0,
    0, 0, 9, 255, 255, 255, 255, 0,
];

#[test]
fn no_chapter_is_before_the_first_one(rt: HostRuntime) {
    let told = met(&own(0), None, None, OF_THE_LAST_CHAPTER);
    demand_same(&rt, &0, &told, &(Some(Met::Elsewhere), None));
    let told = met(&own(u32::MAX), None, None, OF_THE_LAST_CHAPTER);
    demand_same(
        &rt,
        &u32::MAX,
        &told,
        &(Some(Met::Peer(Brings::Frames)), Some(9)),
    );
}

/// The bytes of greetings, and what they say.
const GREETINGS: &[(&[u8], Option<(bool, u64)>)] = &[
    (
        &[1, 1, 2, 3, 4, 5, 6, 7, 8],
        Some((true, 0x0102_0304_0506_0708)),
    ),
    (&[0, 0, 0, 0, 0, 0, 0, 0, 0], Some((false, 0))),
    (&[0, 0, 0, 0, 0, 0, 0, 1, 2], Some((false, 258))),
    (&[2, 0, 0, 0, 0, 0, 0, 0, 0], None),
    (&[1, 0, 0, 0, 0, 0, 0, 0], None),
    (&[1, 0, 0, 0, 0, 0, 0, 0, 0, 0], None),
    (&[], None),
];

/// Whether these are the bytes of the greeting.
fn is_spelled(is_wanting: bool, accepted: u64, bytes: &[u8]) -> bool {
    let greeting = Greeting {
        is_wanting,
        accepted,
    };
    greeting.bytes().as_slice() == bytes
}

/// Whether the row is read as it says, and its greeting spelled again.
fn is_read(bytes: &[u8], said: Option<(bool, u64)>) -> bool {
    match (Greeting::read(bytes), said) {
        (Some(greeting), Some((is_wanting, accepted))) => {
            greeting.is_wanting == is_wanting
                && greeting.accepted == accepted
                && is_spelled(is_wanting, accepted, bytes)
        }
        (None, None) => true,
        _ => false,
    }
}

#[test]
fn greetings_are_read_as_they_were_told(rt: HostRuntime) {
    for row in GREETINGS {
        demand(&rt, row, is_read(row.0, row.1));
    }
}

/// Lines of names, and the CRC-32 of the names with a space between two, as Python's zlib has it.
const NAMES: &[(&str, u32)] = &[
    ("registers x", 0x8cdc_1683),
    ("registers x y", 0x19fe_0dc0),
    ("registers counter flag left", 0x05e6_6ef5),
];

/// The CRC-32 of the names of this line.
fn crc_of(alloc: Global, line: &str) -> Option<u32> {
    match read_names(alloc, &mut Lines::new(line.as_bytes()), 256) {
        Ok(names) => Some(names_crc(&names)),
        Err(_) => None,
    }
}

#[test]
fn names_have_a_usual_crc(rt: HostRuntime) {
    for row in NAMES {
        demand_same(&rt, row, &crc_of(rt.alloc(), row.0), &Some(row.1));
    }
}
