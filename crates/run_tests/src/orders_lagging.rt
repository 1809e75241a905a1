//! Serial orders of histories whose reads lag behind one order of all writes, as in runs of `local-read`: found with
//! few stages kept, since no operation is placed before what has to come before it.
use crate::histories::history_on;
use crate::orders_found::is_serial;
use reg_base::{Answer, Op, OpId, Shape};
use reg_history::Entry;
use std::alloc::{AllocError, Global};

const PROCESSES: u32 = 8;

/// How many writes a copy lags behind at most.
const MOST_LAG: usize = 20;

/// A process, with its own copy of the registers.
#[derive(Clone, Copy)]
struct Reader {
    /// The number of its next operation.
    number: u32,
    /// How many writes its copy has, the first ones of their order.
    has: usize,
    /// The place in their order of its write that is under way.
    writes: Option<usize>,
}

const AT_FIRST: Reader = Reader {
    number: 0,
    has: 0,
    writes: None,
};

/// A run of processes that each read their own copy.
#[derive(Drop)]
struct Run {
    registers: u32,
    readers: Vec<Reader>,
    /// The registers that are written, in the order of the writes. Each writes its place, counted from one.
    written: Vec<u16>,
    entries: Vec<Entry>,
    /// What is drawn next, by a linear rule.
    seed: u64,
}

/// The value of a register after these writes.
fn value_after(written: &[u16], register: u16) -> u64 {
    let mut value = 0;
    for place in 0..written.len() {
        if written[place] == register {
            value = place as u64 + 1;
        }
    }
    value
}

impl Run {
    fn new(alloc: Global, registers: u32, seed: u64) -> Result<Run, AllocError> {
        let mut readers = Vec::new(alloc);
        for _process in 0..PROCESSES {
            readers.push(AT_FIRST)?;
        }
        Ok(Run {
            registers,
            readers,
            written: Vec::new(alloc),
            entries: Vec::new(alloc),
            seed,
        })
    }

    /// A number below the bound, which is not nought.
    fn draw(&mut self, bound: u32) -> u32 {
        self.seed = self
            .seed
            .wrapping_mul(6_364_136_223_846_793_005)
            .wrapping_add(1_442_695_040_888_963_407);
        let drawn = u32::try_from(self.seed >> 33).unwrap_or(0);
        drawn.checked_rem(bound).unwrap_or(0)
    }

    /// The event of the next entry.
    fn at(&self) -> u32 {
        u32::try_from(self.entries.len()).unwrap_or(u32::MAX)
    }

    /// A process's operation is called.
    fn call(&mut self, id: OpId, op: Op) -> Result<(), AllocError> {
        let at = self.at();
        self.entries.push(Entry::Called { at, id, op })?;
        Ok(())
    }

    /// It is answered.
    fn answer(&mut self, id: OpId, answer: Answer) -> Result<(), AllocError> {
        let at = self.at();
        self.entries.push(Entry::Answered { at, id, answer })?;
        Ok(())
    }

    /// A process reads or writes a register, where its copy has not lagged too far behind. A write is under way until
    /// the copy has it.
    fn begin(&mut self, process: u8, mut reader: Reader) -> Result<Reader, AllocError> {
        let register = u16::try_from(self.draw(self.registers)).unwrap_or(0);
        let id = OpId {
            process,
            number: reader.number,
        };
        reader.number = reader.number.wrapping_add(1);
        reader.has = reader.has.max(self.written.len().saturating_sub(MOST_LAG));
        if self.draw(2) == 0 {
            reader.writes = Some(self.written.len());
            self.written.push(register)?;
            let value = self.written.len() as u64;
            self.call(id, Op::Write { register, value })?;
        } else {
            let known = self.written.get(..reader.has).unwrap_or(&[]);
            let value = value_after(known, register);
            self.call(id, Op::Read { register })?;
            self.answer(id, Answer::Value(value))?;
        }
        Ok(reader)
    }

    /// The copy of a process that writes takes some writes more. The write is answered once it is among them.
    fn go_on(
        &mut self,
        process: u8,
        mut reader: Reader,
        place: usize,
    ) -> Result<Reader, AllocError> {
        let more = self.draw(MOST_LAG as u32) as usize;
        let has = reader.has.saturating_add(more).saturating_add(1);
        reader.has = has.min(self.written.len());
        if reader.has > place {
            reader.writes = None;
            let id = OpId {
                process,
                number: reader.number.wrapping_sub(1),
            };
            self.answer(id, Answer::Done)?;
        }
        Ok(reader)
    }

    /// Some process does something.
    fn step(&mut self) -> Result<(), AllocError> {
        let process = u8::try_from(self.draw(PROCESSES)).unwrap_or(0);
        let Some(reader) = self.readers.get(usize::from(process)).copied() else {
            return Ok(());
        };
        let then = match reader.writes {
            Some(place) => self.go_on(process, reader, place)?,
            None => self.begin(process, reader)?,
        };
        if let Some(reader) = self.readers.get_mut(usize::from(process)) {
            *reader = then;
        }
        Ok(())
    }
}

/// The entries of a run of so many steps.
fn entries_of(
    alloc: Global,
    registers: u32,
    steps: u32,
    seed: u64,
) -> Result<Vec<Entry>, AllocError> {
    let mut run = Run::new(alloc, registers, seed)?;
    for _step in 0..steps {
        run.step()?;
    }
    Ok(run.entries)
}

/// Whether these entries on so many registers have a serial order, which is found.
fn are_ordered(alloc: Global, registers: u32, entries: &[Entry]) -> bool {
    let Ok(shape) = Shape::new(PROCESSES, registers) else {
        return false;
    };
    match history_on(alloc, shape, entries) {
        Some(history) => is_serial(alloc, &history),
        None => false,
    }
}

/// Whether so many steps on so many registers have a serial order, which is found.
fn lags_in_order(alloc: Global, registers: u32, steps: u32, seed: u64) -> bool {
    match entries_of(alloc, registers, steps, seed) {
        Ok(entries) => are_ordered(alloc, registers, &entries),
        Err(_) => false,
    }
}

#[test]
fn copies_that_lag_by_twenty_writes(rt: HostRuntime) {
    assert!(rt; lags_in_order(rt.alloc(), 4, 400, 4));
}

#[test]
fn copies_of_many_registers_that_lag(rt: HostRuntime) {
    assert!(rt; lags_in_order(rt.alloc(), 32, 800, 6));
}
