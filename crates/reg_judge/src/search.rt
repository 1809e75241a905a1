//! The search: entries are gone through in order, and for each register the stages are kept that its operations can
//! have led to. An operation takes effect only where the next answer asks for it (Lowe 2017).
ghost use Rattle.std.specs.Prelude.{◌≡◌, ◌+◌, ◌<◌, ◌≤◌, ℕ, List, Option, IfOk, IfSome, OnOk, length, replicate};
ghost use Rattle.std.specs.Prelude.{slice_set};
ghost use Rattle.reg_checkers.specs.History.{IsAt, IsHistory};
ghost use Rattle.reg_checkers.specs.Table.{IsTable};
ghost use Rattle.reg_judge.specs.declared.acts.Act.{Act as AnyAct};
ghost use Rattle.reg_judge.specs.declared.calls.Call.{Call as AnyCall};
ghost use Rattle.reg_judge.specs.Acts.{act_in as act_in_rows};
ghost use Rattle.reg_judge.specs.Searching.{AreFirst, AreRead, AreWaiting, IsAnswering, IsCallOf, IsFirst, IsKnown};
ghost use Rattle.reg_judge.specs.Searching.{IsLayerAfter, IsSearchEnd, IsStep};
ghost use Rattle.reg_judge.specs.Stages.{IsRead, Reads};

use crate::acts::Act;
use crate::bits::with;
use crate::calls::{Call, Needs, call_of, movers_on, needs_of};
use crate::found::{Answering, close};
use crate::stages::{Stage, all_have, answered};
use crate::trail::Trail;
use reg_base::{OpId, Shape};
use reg_checkers::{Entry, Fact};
use std::alloc::{AllocError, Allocator, Global};

/// A search under way.
#[derive(Drop)]
pub struct Search<A: Allocator + Copy = Global> {
    alloc: A,
    /// The most stages of a register between two entries.
    limit: u32,
    /// What runs, by process.
    running: Vec<Option<Call>, A>,
    /// The stages, by register.
    pub layers: Vec<Vec<Stage, A>, A>,
    pub trail: Trail<A>,
}

/// How a step of a search ended.
#[derive(Clone, Copy)]
pub enum Stepped {
    /// There are stages still.
    On,
    /// A register has no stage any more.
    Stuck,
    /// A register has more stages than the limit.
    TooMany,
}

/// The stage where a read that is called takes effect at once, if it tells the value.
fn read_stage<A: Allocator + Copy>(
    trail: &mut Trail<A>,
    stage: Stage,
    id: OpId,
    act: Act,
) -> Result<Stage, AllocError>
    requires { id.process < 64 }
    ensures { IfOk result (IsRead id.process stage) }
{
    if !act.fits(stage.value) {
        return Ok(stage);
    }
    let last = trail.place(id, stage.last)?;
    Ok(Stage {
        placed: with(stage.placed, id.process),
        value: stage.value,
        last,
    })
}

/// A read that is called takes effect at once at each stage where it tells the value.
fn read_at_once<A: Allocator + Copy>(
    layer: &mut Vec<Stage, A>,
    trail: &mut Trail<A>,
    id: OpId,
    act: Act,
) -> Result<(), AllocError>
    requires { id.process < 64 }
    ensures { OnOk result (Reads id.process layer.old.items layer.new.items) }
{
    for place in 0..layer.len() {
        layer[place] = read_stage(trail, layer[place], id, act)?;
    }
    Ok(())
}

/// The stages of a register at first: one, at which nothing is placed.
fn first_layer<A: Allocator + Copy>(alloc: A) -> Result<Vec<Stage, A>, AllocError>
    ensures { IfOk result (λ v. IsFirst v.items) }
{
    let mut layer = Vec::new(alloc);
    layer.push(Stage {
        placed: 0,
        value: 0,
        last: None,
    })?;
    Ok(layer)
}

/// The stages of each register at first.
fn first_layers<A: Allocator + Copy>(
    alloc: A,
    registers: u32,
) -> Result<Vec<Vec<Stage, A>, A>, AllocError>
    ensures first { IfOk result (λ v. AreFirst v.items) }
    ensures len { IfOk result (λ v. length v.items ≡ registers) }
{
    let mut layers = Vec::new(alloc);
    for _register in 0..registers {
        layers.push(first_layer(alloc)?)?;
    }
    Ok(layers)
}

/// The stages of a register after an answer, None where there are more than the limit.
fn layer_after<A: Allocator + Copy>(
    alloc: A,
    running: &[Option<Call>],
    layer: &[Stage],
    trail: &mut Trail<A>,
    at: Answering,
) -> Result<Option<Vec<Stage, A>>, AllocError>
    requires process { at.process < 64 }
    requires narrow { (p : ℕ) (c : AnyCall) → IsAt running.now p (Some c) → c.id.process < 64 }
    ensures { IfOk result
        (λ o. IfSome o (λ v. IsLayerAfter running.now at.register at.place at.process layer.now v.items)) }
{
    if all_have(layer, at.process) {
        return Ok(Some(answered(alloc, layer, at.process)?));
    }
    let movers = movers_on(alloc, running, at.register, at.place)?;
    close(alloc, trail, layer, &movers, at)
}

impl<A: Allocator + Copy> Search<A> {
    /// A search at the first entry.
    fn new(alloc: A, shape: Shape, limit: u32) -> Result<Search<A>, AllocError>
        ensures first { IfOk result (λ s. AreFirst s.layers.items) }
        ensures registers { IfOk result (λ s. length s.layers.items ≡ shape.registers) }
        ensures idle { IfOk result (λ s. s.running.items ≡ replicate shape.processes None) }
        ensures few { IfOk result (λ s. shape.processes ≤ 64) }
    {
        let running: Vec<Option<Call>, A> = vec![in alloc; None; shape.processes() as usize]?;
        let layers = first_layers(alloc, shape.registers())?;
        Ok(Search {
            alloc,
            limit,
            running,
            layers,
            trail: Trail::new(alloc),
        })
    }

    /// An operation is called.
    fn call(&mut self, rows: &[Vec<Fact, A>], needs: &Needs<A>, id: OpId) -> Result<(), AllocError>
        requires process { id.process < length self.old.running.items }
        requires few { length self.old.running.items ≤ 64 }
        requires register { (a : AnyAct) → act_in_rows rows.now id ≡ Some a
            → a.register < length self.old.layers.items }
        ensures running { OnOk result
            ((o : Option AnyCall) × IsCallOf rows.now needs.now id o
            × (self.new.running.items ≡ slice_set self.old.running.items id.process o)) }
        ensures layers { OnOk result (AreRead (act_in_rows rows.now) id self.old.layers.items self.new.layers.items) }
        ensures len { OnOk result (length self.new.layers.items ≡ length self.old.layers.items) }
    {
        let call = call_of(rows, needs, id);
        self.running[usize::from(id.process)] = call;
        let Some(call) = call else {
            return Ok(());
        };
        if call.act.makes.is_some() {
            return Ok(());
        }
        let layer = &mut self.layers[usize::from(call.act.register)];
        read_at_once(layer, &mut self.trail, id, call.act)
    }

    /// What a process runs is answered, as the entry at a place.
    fn answer(&mut self, process: u8, place: usize) -> Result<Stepped, AllocError>
        requires process { process < length self.old.running.items }
        requires few { length self.old.running.items ≤ 64 }
        requires narrow { (p : ℕ) (c : AnyCall) → IsAt self.old.running.items p (Some c) → c.id.process < 64 }
        requires registers { (p : ℕ) (c : AnyCall) → IsAt self.old.running.items p (Some c)
            → c.act.register < length self.old.layers.items }
        ensures answered { IfOk result
            (λ s. IsAnswering process place self.old.running.items self.old.layers.items self.new.running.items
            self.new.layers.items s) }
    {
        let Some(call) = self.running[usize::from(process)] else {
            return Ok(Stepped::On);
        };
        let register = call.act.register;
        let at = Answering {
            process,
            register,
            place,
            limit: self.limit,
        };
        let layer = &self.layers[usize::from(register)];
        let Some(next) = layer_after(self.alloc, &self.running, layer, &mut self.trail, at)? else {
            return Ok(Stepped::TooMany);
        };
        if next.is_empty() {
            return Ok(Stepped::Stuck);
        }
        self.layers[usize::from(register)] = next;
        self.running[usize::from(process)] = None;
        Ok(Stepped::On)
    }

    /// The entry at a place.
    fn step(
        &mut self,
        rows: &[Vec<Fact, A>],
        needs: &Needs<A>,
        entries: &[Entry],
        place: usize,
    ) -> Result<Stepped, AllocError>
        requires place { place < length entries.now }
        requires known { IsKnown (length self.old.running.items) (length self.old.layers.items) entries.now rows.now
            needs.now }
        requires waiting { AreWaiting entries.now (act_in_rows rows.now) place self.old.running.items }
        ensures step { IfOk result
            (λ s. IsStep (act_in_rows rows.now) place entries.now self.old.running.items self.old.layers.items
            self.new.running.items self.new.layers.items s) }
        ensures waiting { IfOk result (λ s. s ≡ Stepped.On
            → AreWaiting entries.now (act_in_rows rows.now) (place + 1) self.new.running.items) }
        ensures processes { IfOk result (λ s. s ≡ Stepped.On
            → length self.new.running.items ≡ length self.old.running.items) }
        ensures registers { IfOk result (λ s. s ≡ Stepped.On
            → length self.new.layers.items ≡ length self.old.layers.items) }
    {
        match entries[place] {
            Entry::Called { at: _, id, op: _ } => {
                self.call(rows, needs, id)?;
                Ok(Stepped::On)
            }
            Entry::Answered {
                at: _,
                id,
                answer: _,
            } => {
                let stepped = self.answer(id.process, place)?;
                Ok(stepped)
            }
        }
    }
}

/// How a search ended.
#[derive(Drop)]
pub enum Searched<A: Allocator + Copy = Global> {
    /// All entries are gone through.
    Through(Search<A>),
    /// At the entry of this place some register had no stage. The search stands before it.
    AtEntry(usize, Search<A>),
    /// At the entry of this place some register had more stages than the limit.
    Wide(usize),
}

/// Goes through all entries.
pub fn go_through<A: Allocator + Copy>(
    alloc: A,
    shape: Shape,
    rows: &[Vec<Fact, A>],
    entries: &[Entry],
    limit: u32,
) -> Result<Searched<A>, AllocError>
    requires history { IsHistory shape.processes shape.registers entries.now }
    requires table { IsTable entries.now rows.now }
    ensures { IfOk result (IsSearchEnd shape.registers entries.now) }
{
    let needs = needs_of(alloc, rows, entries)?;
    let mut search = Search::new(alloc, shape, limit)?;
    for place in 0..entries.len() {
        match search.step(rows, &needs, entries, place)? {
            Stepped::On => {}
            Stepped::Stuck => return Ok(Searched::AtEntry(place, search)),
            Stepped::TooMany => return Ok(Searched::Wide(place)),
        }
    }
    Ok(Searched::Through(search))
}
