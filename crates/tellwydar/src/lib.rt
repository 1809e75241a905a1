//! Shared registers over totally ordered multicast: what a program of one's own needs, in one place. `docs/LIBRARY.md`
//! is the tour. Except for three short names of operations, a shape made from names, the first call of a world and a
//! read from a floor, all of it is what the crates below offer, under their own contracts.
#![tactic(auto)]

mod beginning;
mod floors;
mod naming;
mod operations;

pub use beginning::call_first;
pub use floors::read_from;
pub use naming::shape_for;
pub use operations::{read, swap, write};
pub use reg_base::{Answer, Names, NamesFault, Op, OpId, Shape, ShapeFault, Stamp, limits};
pub use reg_frames::{Body, Frame};
pub use reg_front::{Front, FrontEnd, Linear, LocalRead, LocalWrite, RealTime, Start};
pub use reg_history::{
    CheckFault, Entry, History, HistoryFault, Point, ReadFault, ReadWhy, Report, ReportFault,
    WriteFault, check_points, check_serial, read_report, write_report,
};
pub use reg_live::{
    CloseFault, Closed, Cluster, Courier, Gate, Honest, LiveFault, LogEntry, NoGate, Pacer, Parcel,
    Parts, Pass, Posts, Receipt, Road, Rough, RunStop, Running, StartFault, close, close_in,
    run_scripts, run_scripts_in, set_up, start, verify, verify_in,
};
pub use reg_process::{Reply, Step};
pub use reg_records::{SettleFault, settle};
pub use reg_workload::{
    Key, Play, Schedule, ScheduleFault, SeedWords, Words, Workload, WorkloadFault, parse_schedule,
    play_fair, play_fair_in, play_seeded, play_seeded_in,
};
pub use reg_world::{
    Accepted, CopyRead, Event, EventStore, First, ListingStore, PackedEvents, PackedWires,
    RunFault, UnlistedWires, WireStore, Wires, World, WorldFault,
};
