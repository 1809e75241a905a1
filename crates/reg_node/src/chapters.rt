//! Chapters of a cluster that doesn't end: how far its processes have come in one, and when it is over.
ghost use Rattle.std.specs.Prelude.{ℕ, ◌≡◌, ◌≢◌, ◌+◌, ◌*◌, ◌<◌, ◌≤◌, ◌⊎◌, ◌↔◌, true, false, Some, None, drop, length};
ghost use Rattle.std.specs.Prelude.{replicate, slice_get, slice_index_or, take, IfErr, IfOk, MatchOption, OnErr, OnOk};
ghost use Rattle.std.specs.Int.{w64, to_be_bytes};
ghost use Rattle.std.specs.List.{sum};
ghost use Rattle.reg_process.specs.Process.{next_of, peer_at};
ghost use Rattle.reg_node.specs.Chapters.{HasAccepted, HasForm, HearsStanding, IsDone, IsOver, IsStanding, IsUnheard};
ghost use Rattle.reg_node.specs.Chapters.{OwnIsNone, SpellsStanding, Standing, TellsStanding, bit as bit_of, is_kept};
ghost use Rattle.reg_node.specs.Chapters.{numbers_bytes, rank as rank_of, standing_bytes, with_standing};

use reg_front::FrontEnd;
use reg_process::Process;
use std::alloc::{AllocError, Allocator, Global};
use std::marker::Model;
use thiserror::Error;

/// The flag of a process that calls nothing more and has no operation that goes on.
const QUIET: u8 = 1;
/// The flag of a process whose frames are all acknowledged.
const AT_REST: u8 = 2;
/// The bytes of the flags and of the number of bodies that were queued: those of the others stand behind them.
const HEAD: usize = 9;

/// Why what another process says isn't heard: the first of these that applies. Nothing has changed.
#[derive(Clone, Copy, Debug, PartialEq, Eq, Error)]
pub enum ToldFault {
    /// There is no process of this number.
    #[error("no process")]
    NoProcess,
    /// The bytes are no state of a process of such a cluster.
    #[error("no state")]
    NoState,
    /// There was no memory.
    #[error("out of memory")]
    OutOfMemory,
}

/// How far a process has come in its chapter.
#[derive(Drop)]
pub struct Told<A: Allocator + Copy = Global> {
    is_quiet: bool,
    is_at_rest: bool,
    put: u64,
    accepted: Vec<u64, A>,
}

impl<A: Allocator + Copy> Model for Told<A> {
    ghost use Rattle.std.specs.Prelude.{◌≤◌, length};
    ghost use Rattle.reg_node.specs.Chapters.{Standing};

    ghost Value = { Standing };

    ghost view = { λ t.
        record { is_quiet = t.is_quiet; is_at_rest = t.is_at_rest; put = t.put; accepted = t.accepted.items } };

    ghost invariant = { λ t. length t.accepted.items ≤ 255 };
}

/// The value of a bit that is set, else 0.
pub(crate) fn bit(is: bool, value: u8) -> u8
    ensures value { result ≡ bit_of is value }
    ensures within { result ≤ value }
{
    if is { value } else { 0 }
}

/// The number that these eight bytes spell, the highest first.
pub(crate) fn number_at(bytes: &[u8], at: usize) -> u64
    requires { at + 8 ≤ length bytes.now }
    ensures { to_be_bytes w64 result ≡ take 8 (drop at bytes.now) }
{
    let field = &bytes[at..at + 8];
    u64::from_be_bytes([
        field[0], field[1], field[2], field[3], field[4], field[5], field[6], field[7],
    ])
}

/// Whether the bytes can be a state of one of so many processes.
fn may_be_state(bytes: &[u8], processes: u8) -> bool
    ensures { result ≡ true ↔ HasForm processes bytes.now }
{
    bytes.len() == HEAD + usize::from(processes) * 8 && bytes[0] <= QUIET + AT_REST
}

/// The numbers that the bytes spell, each by eight.
fn numbers<A: Allocator + Copy>(
    alloc: A,
    bytes: &[u8],
    count: u8,
) -> Result<Vec<u64, A>, AllocError>
    requires { length bytes.now ≡ count * 8 }
    ensures { IfOk result (λ v. (length v.items ≡ count) × (bytes.now ≡ numbers_bytes v.items)) }
{
    let mut numbers = Vec::new(alloc);
    for place in 0..count {
        numbers.push(number_at(bytes, usize::from(place) * 8))?;
    }
    Ok(numbers)
}

/// How many bodies a process accepted of another. It accepts none of itself.
fn accepted<F: FrontEnd, A: Allocator + Copy>(process: &Process<F, A>, of: u8) -> u64
    ensures other { of ≢ process.now.state.me → result ≡ (peer_at process.now.state of).expected }
    ensures own { of ≡ process.now.state.me → result ≡ 0 }
{
    process.known(of).map_or(0, |known| known.expected)
}

/// How many bodies a process queued for another.
fn queued<F: FrontEnd, A: Allocator + Copy>(process: &Process<F, A>, other: u8) -> u64
    ensures value { other ≢ process.now.state.me → result ≡ next_of (peer_at process.now.state other) }
    ensures of_one { (result ≡ 0) ⊎ (result ≡ next_of (peer_at process.now.state other)) }
{
    process.known(other).map_or(0, |known| known.next)
}

/// The most bodies that a process queued for any other.
fn most_queued<F: FrontEnd, A: Allocator + Copy>(process: &Process<F, A>) -> u64
    ensures most { (q : ℕ) → q < length process.now.state.peers → q ≢ process.now.state.me
        → next_of (peer_at process.now.state q) ≤ result }
    ensures of_one { (result ≡ 0) ⊎ ((q : ℕ) × (result ≡ next_of (peer_at process.now.state q))) }
{
    let mut most = 0;
    for other in 0..process.processes() {
        most = most.max(queued(process, other));
    }
    most
}

/// How many bodies a process accepted of each other one, and none of itself.
fn all_accepted<F: FrontEnd, A: Allocator + Copy, B: Allocator + Copy>(
    alloc: B,
    process: &Process<F, A>,
) -> Result<Vec<u64, B>, AllocError>
    ensures of_all { IfOk result (λ v. length v.items ≡ length process.now.state.peers) }
    ensures few { IfOk result (λ v. length v.items ≤ 255) }
    ensures accepted { IfOk result
        (λ v. (q : ℕ) → q < length process.now.state.peers → q ≢ process.now.state.me
        → slice_get v.items q ≡ Some (peer_at process.now.state q).expected) }
    ensures own { IfOk result (λ v. OwnIsNone process.now.state v.items) }
{
    let mut counts = Vec::new(alloc);
    for other in 0..process.processes() {
        counts.push(accepted(process, other))?;
    }
    Ok(counts)
}

impl<A: Allocator + Copy> Told<A> {
    /// How far a process has come, by what it knows of the others. Whether it is quiet is its owner's to know.
    pub fn of<F: FrontEnd, B: Allocator + Copy>(
        alloc: A,
        process: &Process<F, B>,
        is_quiet: bool,
    ) -> Result<Told<A>, AllocError>
        ensures is { IfOk result (IsStanding process.now.state is_quiet) }
        ensures own { IfOk result (λ t. OwnIsNone process.now.state t.accepted) }
    {
        let put = most_queued(process);
        let is_at_rest = process.pending() == 0;
        let accepted = all_accepted(alloc, process)?;
        Ok(Told {
            is_quiet,
            is_at_rest,
            put,
            accepted,
        })
    }

    /// The state of one of so many processes that the bytes spell, if they spell one.
    pub fn read(alloc: A, bytes: &[u8], processes: u8) -> Result<Option<Told<A>>, AllocError>
        ensures read { IfOk result
            (λ o. MatchOption o ((s : Standing) → ¬ SpellsStanding processes bytes.now s)
            (λ t. SpellsStanding processes bytes.now t)) }
        ensures memory { OnErr result (HasForm processes bytes.now) }
    {
        if !may_be_state(bytes, processes) {
            return Ok(None);
        }
        let flags = bytes[0];
        let put = number_at(bytes, 1);
        let accepted = numbers(alloc, &bytes[HEAD..], processes)?;
        Ok(Some(Told {
            is_quiet: flags % 2 == QUIET,
            is_at_rest: flags / 2 == 1,
            put,
            accepted,
        }))
    }

    /// The bytes that spell it.
    pub fn bytes<B: Allocator + Copy>(&self, alloc: B) -> Result<Vec<u8, B>, AllocError>
        ensures { IfOk result (λ v. v.items ≡ standing_bytes self.now) }
    {
        let mut bytes = Vec::new(alloc);
        bytes.push(bit(self.is_quiet, QUIET) + bit(self.is_at_rest, AT_REST))?;
        bytes.extend_from_slice(&self.put.to_be_bytes())?;
        for count in &self.accepted {
            bytes.extend_from_slice(&count.to_be_bytes())?;
        }
        Ok(bytes)
    }

    /// The sum of its numbers.
    fn sum(&self) -> u128
        ensures value { result ≡ self.now.put + sum self.now.accepted }
        ensures within { result ≤ 256 * 18446744073709551615 }
    {
        let mut sum = u128::from(self.put);
        for count in &self.accepted {
            sum += u128::from(*count);
        }
        sum
    }

    /// Of two states of one process the one with the greater rank is the later one.
    pub fn rank(&self) -> u128
        ensures { result ≡ rank_of self.now }
    {
        self.sum() * 4 + u128::from(bit(self.is_quiet, 2)) + u128::from(bit(self.is_at_rest, 1))
    }

    /// Whether it accepted so many bodies of a process.
    fn has_accepted(&self, of: usize, count: u64) -> bool
        ensures { result ≡ true ↔ slice_get self.now.accepted of ≡ Some count }
    {
        match self.accepted.get(of) {
            Some(accepted) => *accepted == count,
            None => false,
        }
    }
}

/// What the processes of a cluster told of themselves in a chapter.
#[derive(Drop)]
pub struct Chapter<A: Allocator + Copy = Global> {
    me: u8,
    told: Vec<Option<Told<A>>, A>,
}

impl<A: Allocator + Copy> Model for Chapter<A> {
    ghost use Rattle.std.specs.Prelude.{◌≤◌, length};
    ghost use Rattle.reg_node.specs.Chapters.{ChapterState};

    ghost Value = { ChapterState };

    ghost view = { λ c. record { me = c.me; told = c.told.items } };

    ghost invariant = { λ c. length c.told.items ≤ 255 };
}

impl<A: Allocator + Copy> Chapter<A> {
    /// A chapter of so many processes, of which none told anything yet, as the process `me` sees it.
    pub fn new(alloc: A, processes: u8, me: u8) -> Result<Chapter<A>, AllocError>
        ensures { IfOk result (λ c. c ≡ record { me = me; told = replicate processes None }) }
    {
        let mut told = Vec::new(alloc);
        for _process in 0..processes {
            told.push(None)?;
        }
        Ok(Chapter { me, told })
    }

    /// Whether this state of a process is kept behind what it told before.
    fn keeps(&self, process: usize, told: &Told<A>) -> bool
        requires { process < length self.now.told }
        ensures { result ≡ is_kept (slice_index_or self.now.told process None) told.now }
    {
        match &self.told[process] {
            Some(old) => old.rank() <= told.rank(),
            None => true,
        }
    }

    /// Keeps this state of a process, unless it told a later one before.
    fn keep(&mut self, process: usize, told: Told<A>)
        requires { process < length self.old.told }
        ensures { self.new ≡ record self.old { told = with_standing self.old.told process told } }
    {
        if self.keeps(process, &told) {
            self.told[process] = Some(told);
        }
    }

    /// Hears the bytes of a process's state: the latest state of each process is kept.
    pub fn hear(&mut self, sender: u8, bytes: &[u8]) -> Result<(), ToldFault>
        ensures heard { OnOk result (HearsStanding self.old sender bytes.now self.new) }
        ensures refused { IfErr result (λ fault. IsUnheard self.old sender bytes.now fault × (self.new ≡ self.old)) }
    {
        let sender = usize::from(sender);
        if sender >= self.told.len() {
            return Err(ToldFault::NoProcess);
        }
        let processes = self.told.len() as u8;
        let alloc = *self.told.allocator();
        let read = Told::read(alloc, bytes, processes).map_err(|_| ToldFault::OutOfMemory)?;
        let Some(told) = read else {
            return Err(ToldFault::NoState);
        };
        self.keep(sender, told);
        Ok(())
    }

    /// How far the own process has come: it is kept, and its bytes are given for the others.
    pub fn tell<F: FrontEnd, B: Allocator + Copy>(
        &mut self,
        process: &Process<F, B>,
        is_quiet: bool,
    ) -> Result<Vec<u8, A>, AllocError>
        ensures told { IfOk result (λ v. TellsStanding process.now.state is_quiet self.old v.items self.new) }
        ensures kept { OnErr result (self.new ≡ self.old) }
    {
        let alloc = *self.told.allocator();
        let told = Told::of(alloc, process, is_quiet)?;
        let bytes = told.bytes(alloc)?;
        let me = usize::from(self.me);
        if me < self.told.len() {
            self.told[me] = Some(told);
        }
        Ok(bytes)
    }

    /// Whether a process told that it accepted so many bodies of another.
    fn has_accepted(&self, process: usize, of: usize, count: u64) -> bool
        requires { process < length self.now.told }
        ensures { result ≡ true ↔ HasAccepted self.now.told process of count }
    {
        match &self.told[process] {
            Some(told) => told.has_accepted(of, count),
            None => false,
        }
    }

    /// The same, or it is that process itself.
    fn has_met(&self, process: usize, of: usize, count: u64) -> bool
        requires { process < length self.now.told }
        ensures { result ≡ true ↔ (process ≢ of → HasAccepted self.now.told process of count) }
    {
        process == of || self.has_accepted(process, of, count)
    }

    /// Whether all others told that they accepted so many bodies of a process.
    fn have_accepted(&self, of: usize, count: u64) -> bool
        ensures { result ≡ true ↔ ((q : ℕ) → q < length self.now.told → q ≢ of → HasAccepted self.now.told q of count) }
    {
        for process in 0..self.told.len() {
            if !self.has_met(process, of, count) {
                return false;
            }
        }
        true
    }

    /// Whether a process told that it is quiet and at rest, and all others that they accepted all that it put.
    fn is_done(&self, process: usize) -> bool
        requires { process < length self.now.told }
        ensures { result ≡ true ↔ IsDone self.now.told process }
    {
        match &self.told[process] {
            Some(told) => {
                told.is_quiet && told.is_at_rest && self.have_accepted(process, told.put)
            }
            None => false,
        }
    }

    /// Whether the chapter is over, by what the processes told.
    pub fn is_over(&self) -> bool
        ensures { result ≡ true ↔ IsOver self.now.told }
    {
        for process in 0..self.told.len() {
            if !self.is_done(process) {
                return false;
            }
        }
        true
    }
}
