//! One call of each layer, by the names that the crate it is looked for in passes on, so that no door closes unseen.
use reg_base::{
    Answer, Clock, ClockFull, Names, Op, OpId, OutOfMemory, Registers, Shape, ShapeFault, Stamp,
};
use reg_cli::{Command, run_text};
use reg_frames::{Body, Frame, FrameFault, decode, encode};
use reg_front::{Front, FrontEnd, Linear, LocalRead, Start};
use reg_history::{
    CheckFault, Entry, History, Point, ReadFault, ReadWhy, Report, check_points, check_serial,
    read_report, write_report,
};
use reg_holdback::Holdback;
use reg_links::{Inbox, Outbox};
use reg_live::{LiveFault, LogEntry, NoGate, Pass, Receipt, Reply, Step, close, set_up, verify};
use reg_process::{Process, ProcessFault};
use reg_workload::{
    Key, Schedule, ScheduleFault, SeedWords, Why, Words, Workload, WorkloadFault, parse_schedule,
    play_fair, play_seeded,
};
use reg_world::{Event, World, WorldFault};
use std::alloc::Global;
use std::process::Abort;
use std::sync::Wait;

const READ: Op = Op::Read { register: 0 };

const WRITE: Op = Op::Write {
    register: 0,
    value: 5,
};

const FIRST: OpId = OpId {
    process: 0,
    number: 0,
};

/// The shape of one register.
fn shape(rt: &impl Abort, processes: u32) -> Shape {
    Shape::new(processes, 1).expect(rt, "a shape")
}

#[test]
fn base(rt: HostRuntime) {
    let mut clock = Clock::new();
    let time: Result<u64, ClockFull> = clock.tick();
    assert!(rt; time == Ok(1));
    assert!(rt; Shape::new(0, 1) == Err(ShapeFault::NoProcess));
    let made: Result<Registers, OutOfMemory> = Registers::new(rt.alloc(), 1);
    let is_written = match made {
        Ok(mut registers) => {
            registers.apply(&WRITE) == Some(Answer::Done) && registers.get(0) == Some(5)
        }
        Err(_) => false,
    };
    assert!(rt; is_written);
}

#[test]
fn frames(rt: HostRuntime) {
    assert!(rt; decode(&[]) == Err(FrameFault::Short));
    let frame = Frame::Numbered {
        number: 0,
        body: Body::Ack { time: 2 },
    };
    let right: &[u8] = &[
        0, 19, 1, 1, 0, 0, 0, 0, 0, 0, 0, 0, 2, 0, 0, 0, 0, 0, 0, 0, 2,
    ];
    let is_coded = match encode(rt.alloc(), &frame) {
        Ok(bytes) => bytes.as_slice() == right && decode(bytes.as_slice()) == Ok(frame),
        Err(_) => false,
    };
    assert!(rt; is_coded);
}

#[test]
fn links(rt: HostRuntime) {
    let body = Body::Ack { time: 2 };
    let mut inbox = Inbox::new();
    assert_eq!(rt;
        (
            inbox.take(1, body) == None,
            inbox.take(0, body) == Some(body)
        ),
        (true, true)
    );
    let is_got = {
        let mut outbox = Outbox::new(rt.alloc());
        outbox.queue(body) == Ok(Frame::Numbered { number: 0, body })
            && outbox.got(1).is_ok()
            && outbox.pending() == 0
    };
    assert!(rt; is_got);
}

#[test]
fn holdback(rt: HostRuntime) {
    let stamp = Stamp {
        time: 1,
        process: 0,
    };
    let later = Stamp {
        time: 2,
        process: 2,
    };
    let shape = Shape::new(3, 1).expect(&rt, "a shape");
    let is_held = match Holdback::new(rt.alloc(), 1, shape) {
        Ok(mut held) => {
            held.receive(stamp, Some(WRITE)).is_ok()
                && held.pop() == None
                && held.receive(later, None).is_ok()
                && held.pop() == Some((stamp, WRITE))
        }
        Err(_) => false,
    };
    assert!(rt; is_held);
}

#[test]
fn fronts(rt: HostRuntime) {
    assert!(rt; Front::from_name("local-read") == Some(Front::LocalRead));
    assert!(rt;
        LocalRead::start(&READ, 0) == Start::Look && Linear::start(&READ, 0) == Start::Cast
    );
}

/// Whether a process alone answers the write at once, and takes no frame from itself.
fn is_alone(process: &mut Process<Linear>) -> bool {
    let reply = Reply {
        answer: Answer::Done,
        place: 0,
    };
    let is_answered = match process.call(WRITE) {
        Ok(outcome) => outcome.reply == Some(reply),
        Err(_) => false,
    };
    let refused = process.take(0, &Frame::Got { count: 0 }).err();
    is_answered && refused == Some(ProcessFault::NoProcess)
}

#[test]
fn one_process(rt: HostRuntime) {
    let is_right = match Process::<Linear>::new(rt.alloc(), shape(&rt, 1), 0) {
        Ok(mut process) => is_alone(&mut process),
        Err(_) => false,
    };
    assert!(rt; is_right);
}

/// The history of a write by one process.
fn written(rt: &impl Abort, alloc: Global) -> History {
    let mut history = History::new(alloc, shape(rt, 1)).expect(rt, "a history");
    let called = Entry::Called {
        at: 0,
        id: FIRST,
        op: WRITE,
    };
    let answered = Entry::Answered {
        at: 0,
        id: FIRST,
        answer: Answer::Done,
    };
    assert_eq!(rt;
        (history.push(called).is_ok(), history.push(answered).is_ok()),
        (true, true)
    );
    history
}

#[test]
fn checkers(rt: HostRuntime) {
    let point = Point { id: FIRST, at: 0 };
    let is_checked = {
        let history = written(&rt, rt.alloc());
        check_serial(rt.alloc(), &history, &[FIRST]) == Ok(())
            && check_serial(rt.alloc(), &history, &[]) == Err(CheckFault::Missing)
            && check_points(rt.alloc(), &history, &[point]) == Ok(())
    };
    assert!(rt; is_checked);
}

/// The report of the history of a write by one process, whose order is that write.
fn report(rt: &impl Abort, alloc: Global) -> Report {
    let name = "x".to_string(alloc).expect(rt, "memory");
    let names = Names::new(vec![in alloc; name].expect(rt, "memory")).expect(rt, "names");
    let front = "linear".to_string(alloc).expect(rt, "memory");
    let order = vec![in alloc; FIRST].expect(rt, "memory");
    Report::new(front, names, written(rt, alloc), order, None).expect(rt, "a report")
}

/// Whether this is the text of a report.
fn is_text_of(alloc: Global, text: &str, report: &Report) -> bool {
    let mut written = Vec::new(alloc);
    write_report(&mut written, report).is_ok() && written.as_slice() == text.as_bytes()
}

/// The fault of a text that is no report.
fn fault_of(alloc: Global, text: &str) -> Option<ReadFault> {
    read_report(alloc, text).err()
}

#[test]
fn reports(rt: HostRuntime) {
    let right =
        "awreg report 2\nfront linear\nprocesses 1\nregisters 1\nx\nhistory 2\n       0  p0    #0       call    write x 5\n       0  p0    #0       answer  done\norder 1\np0 #0\nend\n";
    let wrong = ReadFault::Line {
        line: 1,
        why: ReadWhy::End,
    };
    assert!(rt; fault_of(rt.alloc(), right) == None);
    assert!(rt; fault_of(rt.alloc(), "") == Some(wrong));
    let is_written = is_text_of(rt.alloc(), right, &report(&rt, rt.alloc()));
    assert!(rt; is_written);
}

/// Whether a world of one process makes the write, and no event of another process.
fn makes_the_write(world: &mut World<Linear>) -> bool {
    let call = Event::Call {
        process: 0,
        op: WRITE,
    };
    world.step(&call) == Ok(())
        && world.step(&Event::Tick { process: 1 }) == Err(WorldFault::NoProcess)
}

/// Whether the write alone is in the order of a world.
fn has_order(world: &World<Linear>) -> bool {
    match world.witness() {
        Ok(order) => order.as_slice() == [FIRST].as_slice(),
        Err(_) => false,
    }
}

/// Whether a world has one point.
fn has_point(world: &World<Linear>) -> bool {
    match world.points() {
        Ok(points) => points.len() == 1,
        Err(_) => false,
    }
}

#[test]
fn worlds(rt: HostRuntime) {
    let is_right = match World::<Linear>::new(rt.alloc(), shape(&rt, 1)) {
        Ok(mut world) => makes_the_write(&mut world) && has_order(&world) && has_point(&world),
        Err(_) => false,
    };
    assert!(rt; is_right);
}

const DOCUMENT: &str = "front = \"linear\"\nregisters = [\"x\"]\nscripts = [[\"write x 5\"]]\n";

/// A source of words that gives 0 each time.
#[derive(Drop)]
struct Noughts {}

impl Words for Noughts {
    ghost next_word = { λ s. (0, s) };

    fn word(&mut self) -> u32 {
        0
    }
}

/// Whether the fair play of a workload is finished.
fn is_finished_fairly(alloc: Global, work: &Workload) -> bool {
    match play_fair::<Linear, _>(alloc, work) {
        Ok(play) => play.finished,
        Err(_) => false,
    }
}

/// Whether the play of a workload by seed 0 is finished.
fn is_finished_by_seed(alloc: Global, work: &Workload) -> bool {
    match play_seeded::<Linear, _, _>(alloc, work, SeedWords::new(0)) {
        Ok(play) => play.finished,
        Err(_) => false,
    }
}

/// Whether both plays of the workload that a document says are finished.
fn is_finished(alloc: Global, document: &str) -> Result<bool, WorkloadFault> {
    let work = Workload::from_toml(alloc, document)?;
    Ok(is_finished_fairly(alloc, &work) && is_finished_by_seed(alloc, &work))
}

#[test]
fn workloads(rt: HostRuntime) {
    assert!(rt; Noughts {}.word() == 0);
    assert!(rt; is_finished(rt.alloc(), DOCUMENT) == Ok(true));
    let missing = WorkloadFault::Missing { key: Key::Front };
    assert!(rt; is_finished(rt.alloc(), "") == Err(missing));
}

/// Whether a tick of process 0 is all that a schedule has.
fn is_one_tick(alloc: Global, text: &str) -> Result<bool, ScheduleFault> {
    let schedule: Schedule = parse_schedule(alloc, text)?;
    Ok(schedule.events.as_slice() == [Event::Tick { process: 0 }].as_slice())
}

#[test]
fn schedules(rt: HostRuntime) {
    let text = "processes 1\nregisters x\nfront linear\ntick 0\n";
    assert!(rt; is_one_tick(rt.alloc(), text) == Ok(true));
    let end = ScheduleFault::Line {
        line: 1,
        why: Why::End,
    };
    assert!(rt; is_one_tick(rt.alloc(), "") == Err(end));
}

/// A list of one list, of this item alone.
fn alone<T: Copy>(rt: &impl Abort, alloc: Global, item: T) -> Vec<Vec<T>> {
    let mut list = Vec::new(alloc);
    list.push(item).expect(rt, "memory");
    let mut lists = Vec::new(alloc);
    lists.push(list).expect(rt, "memory");
    lists
}

/// Whether the log and the receipts of one process are the record of a run, in which it made one step.
fn is_record(alloc: Global, logs: &[Vec<LogEntry>], receipts: &[Vec<Receipt>]) -> bool {
    let Ok(shape) = Shape::new(1, 1) else {
        return false;
    };
    logs.len() == 1
        && receipts.len() == 1
        && verify::<Linear, _>(alloc, shape, &[0], logs, receipts).is_ok()
}

#[test]
fn records(rt: HostRuntime) {
    let entry = LogEntry {
        step: Step::Call { op: WRITE },
        reply: Some(Reply {
            answer: Answer::Done,
            place: 0,
        }),
    };
    let receipt = Receipt {
        id: FIRST,
        op: WRITE,
        answer: Answer::Done,
        called: 0,
        answered: 0,
    };
    let logs = alone(&rt, rt.alloc(), entry);
    let receipts = alone(&rt, rt.alloc(), receipt);
    assert!(rt; is_record(rt.alloc(), logs.as_slice(), receipts.as_slice()));
}

/// Whether the first of the passes performs the write at place 0, and not after place 1, which there isn't yet.
fn performs_the_write(rt: &impl Wait, passes: &mut [Pass<Linear, NoGate>]) -> bool {
    let Some(pass) = passes.first_mut() else {
        return false;
    };
    if pass.perform_after(rt, WRITE, 1).err() != Some(LiveFault::Behind { length: 0 }) {
        return false;
    }
    match pass.perform(rt, WRITE) {
        Ok(receipt) => receipt.answered == 0,
        Err(_) => false,
    }
}

#[test]
fn clusters(rt: HostRuntime) {
    let made = set_up::<Linear, NoGate>(rt.alloc(), shape(&rt, 1), NoGate);
    let mut parts = made.expect(&rt, "a cluster");
    let is_performed = performs_the_write(&rt, parts.passes.as_mut_slice());
    let is_closed = close(&rt, rt.alloc(), parts).is_ok();
    assert_eq!(rt; (is_performed, is_closed), (true, true));
}

const LIVED: &str =
    "awreg report 2\nfront linear\nprocesses 1\nregisters 1\nx\nhistory 2\n       0  p0    #0       call    write x 5\n       0  p0    #0       answer  done\norder 1\np0 #0\npoints 1\np0 #0 at 0\nend\n";

#[test]
fn the_program(rt: HostRuntime) {
    let mut report = LIVED.as_bytes();
    let is_checked = {
        let (mut verdict, mut errors) = (Vec::new(rt.alloc()), Vec::new(rt.alloc()));
        let status = run_text(
            rt.alloc(),
            Command::Check,
            &mut report,
            &mut verdict,
            &mut errors,
        );
        status == 0 && verdict.as_slice() == b"serial yes\npoints yes\n".as_slice()
    };
    assert!(rt; is_checked);
}
