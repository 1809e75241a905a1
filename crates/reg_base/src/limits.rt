//! The limits that all crates share. Each has its one place here.

/// The most processes of a shape.
pub const MOST_PROCESSES: u32 = 64;
/// The most registers of a shape, and the most names.
pub const MOST_REGISTERS: u32 = 4_096;
/// The most letters of a register's name.
pub const LONGEST_NAME: usize = 16;
/// The last time that a clock can show. A clock starts at 0, and a cast or an acknowledgement has a time from 1 on.
pub const LAST_TIME: u64 = 0x1_0000_0000_0000;
/// How many numbers data frames have: they go from 0 to one below this. It is also the highest count of accepted
/// frames.
pub const FRAME_NUMBERS: u64 = 0x1_0000_0000_0000;
/// The most events of a run, and the most sections of a journal.
pub const MOST_EVENTS: u32 = 1_048_576;
/// The number of the last event that a run can have.
pub const LAST_EVENT: u32 = 1_048_575;
/// The most operations of a process, numbered from 0.
pub const MOST_OPERATIONS: u32 = 65_535;
/// The most frames that a tick puts again on one link.
pub const MOST_RESENT: u64 = 16;
/// The most bytes of a text that a program reads.
pub const LONGEST_INPUT: usize = 268_435_456;
/// The last seed of a workload: the greatest integer that a TOML document can write.
pub const LAST_SEED: u64 = 9_223_372_036_854_775_807;
/// The most frames of a hundred that a workload can have lost, or taken again.
pub const MOST_ODDS: u32 = 100;
/// The most events of a play, where its workload says nothing of them.
pub const USUAL_BUDGET: u32 = 100_000;
