//! A world in which each process calls the operations of its script.
ghost use Rattle.std.specs.Prelude.{◌≡◌, ◌<◌, ◌≤◌, ◌↔◌, ◌⊎◌, ◌+◌, ℕ, [], length, nat_lt, true, false, Some, None, IfOk};
ghost use Rattle.std.specs.Prelude.{OnOk, IfSome};
ghost use Rattle.reg_base.specs.Lists.{lists};
ghost use Rattle.reg_base.specs.Shape.{Extent};
ghost use Rattle.reg_process.specs.Process.{pending_of};
ghost use Rattle.reg_base.specs.declared.limits.TheConstants.{MOST_PROCESSES, MOST_EVENTS};
ghost use Rattle.reg_world.specs.Worlds.{Accepts, new_world, refusal, run_in};
ghost use Rattle.reg_process.specs.declared.events.Event.TheVariants.{Call, Take, Tick};
ghost use Rattle.reg_base.specs.declared.memory.Op.{Op};
ghost use Rattle.reg_workload.specs.Plays.{script_of, next_at, cursor_at, call_at, IsDone, IsFinished, IsPlay, Playing};
ghost use Rattle.reg_workload.specs.Plays.{new_play, may_call, next_frame, makes, calls_next, passes};
ghost use Rattle.reg_workload.specs.PlayParts.{IsReadyToCall, ArePlayable};
ghost use Rattle.reg_workload.specs.FairParts.{IsBehind, Leaves, AtRest};

use reg_base::limits::MOST_PROCESSES;
use reg_base::{Op, Shape};
use reg_front::FrontEnd;
use reg_world::{Event, WireStore, Wires, World, WorldFault};
use std::alloc::{AllocError, Allocator, Global};
use std::marker::Model;

/// The most processes, as a length.
pub(crate) const WIDTH: usize = MOST_PROCESSES as usize;

/// What happened in a play, and whether every script was used up and no operation runs.
#[derive(Drop)]
pub struct Play<F: FrontEnd, A: Allocator + Copy = Global, W: WireStore<A> = Wires<A>> {
    pub world: World<F, A, W>,
    pub finished: bool,
}

/// A play under way: the world, the script of each process, and where each process and each wire stands.
#[derive(Drop)]
pub(crate) struct Player<'w, F: FrontEnd, A: Allocator + Copy, W: WireStore<A>> {
    world: World<F, A, W>,
    scripts: &'w [Vec<Op, A>],
    /// How many operations of its script each process has called.
    next: Vec<usize, A>,
    /// How many frames of each wire are passed, so that they aren't chosen any more, by sender and then by receiver.
    cursors: Vec<[u32; WIDTH], A>,
}

impl<'w, F: FrontEnd, A: Allocator + Copy, W: WireStore<A>> Model for Player<'w, F, A, W> {
    ghost use Rattle.std.specs.Prelude.{length};
    ghost use Rattle.reg_base.specs.Lists.{lists};
    ghost use Rattle.reg_workload.specs.Plays.{Playing};
    ghost use Rattle.reg_workload.specs.PlayParts.{IsPlaying};

    ghost Value = { Playing };

    ghost view = { λ p.
        record { made = p.world; scripts = lists p.scripts.now; next = p.next.items; cursors = p.cursors.items } };

    ghost invariant = { λ p. IsPlaying
        (record { made = p.world; scripts = lists p.scripts.now; next = p.next.items; cursors = p.cursors.items }) };
}

/// Makes an event that no fault applies to: it fails only where memory is refused.
// (in line: each caller makes events of one kind, and the step of a world is shorter where that is known)
#[inline(always)]
fn make<F: FrontEnd, A: Allocator + Copy, W: WireStore<A>>(
    world: &mut World<F, A, W>,
    event: Event,
) -> Result<(), AllocError>
    requires { refusal F.start world.old event ≡ None }
    ensures made { OnOk result (Accepts F.start world.old event world.new) }
    ensures processes { world.new.processes ≡ world.old.processes }
    ensures registers { world.new.registers ≡ world.old.registers }
    ensures kept { result ≡ Ok tt ⊎ (world.new.accepted ≡ world.old.accepted) }
{
    match world.step(&event) {
        Ok(()) => Ok(()),
        Err(WorldFault::OutOfMemory) => Err(AllocError),
        Err(_) => unreachable!(),
    }
}

impl<'w, F: FrontEnd, A: Allocator + Copy, W: WireStore<A>> Player<'w, F, A, W> {
    /// A play in which nothing happened yet.
    pub(crate) fn new(
        alloc: A,
        shape: Shape,
        scripts: &'w [Vec<Op, A>],
    ) -> Result<Player<'w, F, A, W>, AllocError>
        requires count { length scripts.now ≡ shape.processes }
        requires playable { ArePlayable shape.registers (lists scripts.now) }
        ensures value { IfOk result (λ p. p ≡ new_play shape (lists scripts.now)) }
        ensures made { IfOk result (λ p. p.made ≡ new_world shape) }
        ensures scripts { IfOk result (λ p. p.scripts ≡ lists scripts.now) }
        ensures cursors { IfOk result (λ p. (a b : ℕ) → cursor_at p a b ≡ 0) }
    {
        let count = shape.processes() as usize;
        let next = vec![in alloc; 0usize; count]?;
        let cursors = vec![in alloc; [0u32; WIDTH]; count]?;
        let world = World::new(alloc, shape)?;
        Ok(Player {
            world,
            scripts,
            next,
            cursors,
        })
    }

    /// The number of processes.
    pub(crate) fn processes(&self) -> u8
        ensures value { result ≡ self.now.made.processes }
        ensures few { result ≤ MOST_PROCESSES }
    {
        self.world.shape().processes() as u8
    }

    /// How many events there are.
    pub(crate) fn events(&self) -> u32
        ensures { result ≡ length self.now.made.accepted }
    {
        self.world.events()
    }

    /// Whether no operation of a process runs.
    fn is_idle(&self, process: u8) -> bool
        requires process { process < self.now.made.processes }
        requires going { self.now.made.failed ≡ false }
        ensures { result ≡ true ↔ ((run_in F.start self.now.made).nodes process).state.running ≡ None }
    {
        match self.world.process(process) {
            Some(process) => !process.busy(),
            None => unreachable!(),
        }
    }

    /// Whether an operation of its script is left.
    fn has_left(&self, process: u8) -> bool
        requires { process < self.now.made.processes }
        ensures { result ≡ true ↔ next_at self.now process < length (script_of self.now.scripts process) }
    {
        self.next[usize::from(process)] < self.scripts[usize::from(process)].len()
    }

    /// Whether a process is free and has an operation left.
    pub(crate) fn may_call(&self, process: u8) -> bool
        requires process { process < self.now.made.processes }
        requires going { self.now.made.failed ≡ false }
        ensures may { result ≡ true ↔ IsReadyToCall F.start self.now process }
        ensures value { result ≡ may_call F.start self.now process }
    {
        self.has_left(process) && self.is_idle(process)
    }

    /// Whether a process has frames to put again.
    pub(crate) fn is_pending(&self, process: u8) -> bool
        requires process { process < self.now.made.processes }
        requires going { self.now.made.failed ≡ false }
        ensures { result ≡ nat_lt 0 (pending_of ((run_in F.start self.now.made).nodes process).state.peers) }
    {
        match self.world.process(process) {
            Some(process) => process.is_pending(),
            None => unreachable!(),
        }
    }
    /// Calls the next operation of a process.
    pub(crate) fn call(&mut self, process: u8) -> Result<(), AllocError>
        requires may { IsReadyToCall F.start self.old process }
        requires process { process < self.old.made.processes }
        requires going { self.old.made.failed ≡ false }
        requires room { length self.old.made.accepted < MOST_EVENTS }
        ensures value { OnOk result (self.new ≡ calls_next F.start self.old process) }
        ensures same { self.new.scripts ≡ self.old.scripts }
        ensures processes { self.new.made.processes ≡ self.old.made.processes }
        ensures registers { self.new.made.registers ≡ self.old.made.registers }
        ensures going { OnOk result (self.new.made.failed ≡ false) }
        ensures more { OnOk result (length self.new.made.accepted ≡ length self.old.made.accepted + 1) }
        ensures cursors { OnOk result (self.new.cursors ≡ self.old.cursors) }
        ensures accepts { OnOk result ((op : Op) × Accepts F.start self.old.made (Call process op) self.new.made) }
    {
        let place = usize::from(process);
        let number = self.next[place];
        let op = self.scripts[place][number];
        make(&mut self.world, Event::Call { process, op })?;
        self.next[place] = number + 1;
        Ok(())
    }

    /// Makes an event that is no call.
    // (in line: as `make`)
    #[inline(always)]
    fn pass(&mut self, event: Event) -> Result<(), AllocError>
        requires no_call { (p : ℕ) → call_at p event ≡ [] }
        requires going { self.old.made.failed ≡ false }
        requires allowed { refusal F.start self.old.made event ≡ None }
        ensures value { OnOk result (self.new ≡ makes F.start self.old event) }
        ensures same { self.new.scripts ≡ self.old.scripts }
        ensures processes { self.new.made.processes ≡ self.old.made.processes }
        ensures registers { self.new.made.registers ≡ self.old.made.registers }
        ensures going { OnOk result (self.new.made.failed ≡ false) }
        ensures more { OnOk result (length self.new.made.accepted ≡ length self.old.made.accepted + 1) }
        ensures cursors { OnOk result (self.new.cursors ≡ self.old.cursors) }
        ensures accepts { OnOk result (Accepts F.start self.old.made event self.new.made) }
    {
        make(&mut self.world, event)
    }

    /// A process puts what is not acknowledged again.
    pub(crate) fn tick(&mut self, process: u8) -> Result<(), AllocError>
        requires process { process < self.old.made.processes }
        requires going { self.old.made.failed ≡ false }
        requires room { length self.old.made.accepted < MOST_EVENTS }
        ensures value { OnOk result (self.new ≡ makes F.start self.old (Tick process)) }
        ensures same { self.new.scripts ≡ self.old.scripts }
        ensures processes { self.new.made.processes ≡ self.old.made.processes }
        ensures registers { self.new.made.registers ≡ self.old.made.registers }
        ensures going { OnOk result (self.new.made.failed ≡ false) }
        ensures more { OnOk result (length self.new.made.accepted ≡ length self.old.made.accepted + 1) }
    {
        self.pass(Event::Tick { process })
    }

    /// The first frame of a wire that is not passed.
    pub(crate) fn frame(&self, from: u8, to: u8) -> Option<u32>
        requires from { from < self.now.made.processes }
        requires to { to < self.now.made.processes }
        ensures value { self.now.made.failed ≡ false → result ≡ next_frame F.start self.now from to }
        ensures next { IfSome result (λ number. number ≡ cursor_at self.now from to) }
        ensures behind { result ≡ None → self.now.made.failed ≡ false → IsBehind F.start self.now from to }
    {
        let cursor = self.cursors[usize::from(from)][usize::from(to)];
        let count = self.world.frame_count(from, to)?;
        if (cursor as usize) < count {
            Some(cursor)
        } else {
            None
        }
    }

    /// Takes the first frame of a wire that is not passed.
    pub(crate) fn take(&mut self, from: u8, to: u8, number: u32) -> Result<(), AllocError>
        requires from { from < self.old.made.processes }
        requires to { to < self.old.made.processes }
        requires next { next_frame F.start self.old from to ≡ Some number }
        requires going { self.old.made.failed ≡ false }
        requires room { length self.old.made.accepted < MOST_EVENTS }
        ensures value { OnOk result (self.new ≡ makes F.start self.old (Take from to number)) }
        ensures same { self.new.scripts ≡ self.old.scripts }
        ensures processes { self.new.made.processes ≡ self.old.made.processes }
        ensures registers { self.new.made.registers ≡ self.old.made.registers }
        ensures going { OnOk result (self.new.made.failed ≡ false) }
        ensures more { OnOk result (length self.new.made.accepted ≡ length self.old.made.accepted + 1) }
        ensures cursors { OnOk result (self.new.cursors ≡ self.old.cursors) }
        ensures accepts { OnOk result (Accepts F.start self.old.made (Take from to number) self.new.made) }
    {
        self.pass(Event::Take { from, to, number })
    }

    /// Passes one more frame of a wire: it isn't chosen any more.
    pub(crate) fn leave(&mut self, from: u8, to: u8)
        requires from { from < self.old.made.processes }
        requires to { to < self.old.made.processes }
        ensures made { self.new.made ≡ self.old.made }
        ensures left { Leaves self.old from to self.new }
        ensures value { cursor_at self.old from to < MOST_EVENTS → self.new ≡ passes self.old from to }
    {
        let cursor = &mut self.cursors[usize::from(from)][usize::from(to)];
        *cursor = cursor.saturating_add(1);
    }
    /// Whether a process has called all of its script, and no operation of it runs.
    fn is_done(&self, process: u8) -> bool
        requires process { process < self.now.made.processes }
        requires going { self.now.made.failed ≡ false }
        ensures { result ≡ true ↔ IsDone F.start self.now.scripts self.now.made process }
    {
        let _world = &self.world;
        let left = self.has_left(process);
        !left && self.is_idle(process)
    }

    /// Whether all processes have called all of their scripts, and no operation runs.
    fn is_finished(&self) -> bool
        requires { self.now.made.failed ≡ false }
        ensures finished { result ≡ true ↔ IsFinished F.start self.now.scripts self.now.made }
        ensures rest { AtRest F.start self.now → result ≡ true }
    {
        let _world = &self.world;
        for process in 0..self.processes() {
            if !self.is_done(process) {
                return false;
            }
        }
        true
    }

    /// What happened in the play.
    pub(crate) fn end(self) -> Play<F, A, W>
        requires { self.made.failed ≡ false }
        ensures world { result.world ≡ self.entry.made }
        ensures play { (shape : Extent) (budget : ℕ) → self.entry.made.processes ≡ shape.processes
            → self.entry.made.registers ≡ shape.registers → length self.entry.made.accepted ≤ budget
            → IsPlay F.start shape self.entry.scripts budget result.world result.finished }
        ensures rest { AtRest F.start self.entry → result.finished ≡ true }
    {
        let _world = &self.world;
        let finished = self.is_finished();
        Play {
            world: self.world,
            finished,
        }
    }
}
