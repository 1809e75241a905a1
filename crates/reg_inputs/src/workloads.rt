//! Workloads, and their reader.
ghost use Rattle.std.specs.Prelude.{◌≡◌, ◌⊎◌, None, Some, IfOk, IfErr, MatchResult};
ghost use Rattle.toml.specs.Data.{Members};
ghost use Rattle.toml.specs.Parse.{parse_document};
ghost use Rattle.toml.specs.View.{table_view};
ghost use Rattle.reg_inputs.specs.declared.faults.WorkloadFault.TheVariants.{OutOfMemory, Toml};
ghost use Rattle.reg_inputs.specs.Loads.{Load, IsLoad, Says};
ghost use Rattle.reg_inputs.specs.Judged.{IsFault};

use crate::faults::WorkloadFault;
use crate::numbers::read_numbers;
use crate::scripts::scripts_of;
use crate::values::{has_known_keys, read_front, read_names, read_scripts};
use reg_base::{Names, Op, Shape};
use reg_front::Front;
use std::alloc::{Allocator, Global};
use std::marker::Model;
use toml::Table;

/// What is played: a front end, a name for each register, a script for each process, and how they are played.
#[derive(Drop)]
pub struct Workload<A: Allocator + Copy = Global> {
    pub shape: Shape,
    pub names: Names<A>,
    pub front: Front,
    /// The operations that each process calls, in order, each on a register of the shape.
    pub scripts: Vec<Vec<Op, A>, A>,
    /// The seed of a seeded play, at most `limits::LAST_SEED`.
    pub seed: u64,
    /// The odds, of a hundred, that a frame that is chosen is lost: 0 to 100.
    pub loss: u32,
    /// The odds, of a hundred, that a frame that is taken can be taken again: 0 to 100.
    pub repeat: u32,
    /// The most events of a play: 1 to `limits::MOST_EVENTS`.
    pub budget: u32,
}

impl<A: Allocator + Copy> Model for Workload<A> {
    ghost use Rattle.reg_base.specs.Lists.{lists};
    ghost use Rattle.reg_inputs.specs.Loads.{Load, IsLoad};

    ghost Value = { Load };

    ghost view = { λ w.
        record {
          shape = w.shape;
          names = w.names;
          front = w.front;
          scripts = lists w.scripts.items;
          seed = w.seed;
          loss = w.loss;
          repeat = w.repeat;
          budget = w.budget;
        } };

    ghost invariant = { λ w. IsLoad
        (record {
          shape = w.shape;
          names = w.names;
          front = w.front;
          scripts = lists w.scripts.items;
          seed = w.seed;
          loss = w.loss;
          repeat = w.repeat;
          budget = w.budget;
        }) };
}

/// The workload that a table says, or the table's first fault.
fn workload_of<A: Allocator + Copy>(alloc: A, table: &Table) -> Result<Workload<A>, WorkloadFault>
    ensures read { IfOk result (λ w. Says (table_view table.now) w × IsLoad w) }
    ensures only { IfOk result (λ w. (l : Load) → Says (table_view table.now) l → IsLoad l → w ≡ l) }
    ensures refused { IfErr result (λ e. (e ≡ OutOfMemory) ⊎ IsFault (table_view table.now) e) }
{
    if !has_known_keys(table) {
        return Err(WorkloadFault::UnknownKey);
    }
    let front = read_front(table)?;
    let names = read_names(alloc, table)?;
    let lines = read_scripts(table)?;
    let numbers = read_numbers(table)?;
    let scripts = scripts_of(alloc, lines, &names)?;
    let Ok(shape) = Shape::new(scripts.len() as u32, names.count() as u32) else {
        unreachable!();
    };
    Ok(Workload {
        shape,
        names,
        front,
        scripts,
        seed: numbers.seed,
        loss: numbers.loss,
        repeat: numbers.repeat,
        budget: numbers.budget,
    })
}

impl<A: Allocator + Copy> Workload<A> {
    /// The workload that a table says. A seed or odds that are not there are 0, and a budget that is not there is
    /// `limits::USUAL_BUDGET`.
    ///
    /// # Errors
    ///
    /// The first fault of the table: a key that no workload has, then each key in turn, and last the first place of a
    /// script that has no operation; or `OutOfMemory`.
    pub fn from_table(alloc: A, table: &Table) -> Result<Workload<A>, WorkloadFault>
        ensures read { IfOk result (λ w. Says (table_view table.now) w × IsLoad w) }
        ensures whole { (l : Load) → Says (table_view table.now) l → IsLoad l
            → MatchResult result (λ w. w ≡ l) (λ e. e ≡ OutOfMemory) }
        ensures refused { IfErr result (λ e. (e ≡ OutOfMemory) ⊎ IsFault (table_view table.now) e) }
    {
        let work = workload_of(alloc, table)?;
        Ok(work)
    }
}

/// The table of a TOML document.
///
/// # Errors
///
/// `Toml` where the text is no TOML document, or `OutOfMemory`.
// (the kit's `toml` keeps a table in the global heap alone)
pub fn read_table(alloc: Global, text: &str) -> Result<Table, WorkloadFault>
    ensures read { IfOk result (λ t. parse_document text.now ≡ Some (table_view t)) }
    ensures refused { IfErr result (λ e. (e ≡ OutOfMemory) ⊎ ((e ≡ Toml) × (parse_document text.now ≡ None))) }
{
    match toml::table_from_str(alloc, text) {
        Ok(table) => Ok(table),
        Err(error) => {
            if error.is_memory() {
                Err(WorkloadFault::OutOfMemory)
            } else {
                Err(WorkloadFault::Toml)
            }
        }
    }
}

impl Workload {
    /// The workload that a TOML document says. A seed or odds that are not there are 0, and a budget that is not there
    /// is `limits::USUAL_BUDGET`.
    ///
    /// # Errors
    ///
    /// `Toml` where the text is no TOML document, else the first fault of its table as `from_table` judges it; or
    /// `OutOfMemory`.
    pub fn from_toml(alloc: Global, text: &str) -> Result<Workload, WorkloadFault>
        ensures read { IfOk result (λ w. (ms : Members) × (parse_document text.now ≡ Some ms) × Says ms w × IsLoad w) }
        ensures whole { (ms : Members) (l : Load) → parse_document text.now ≡ Some ms → Says ms l → IsLoad l
            → MatchResult result (λ w. w ≡ l) (λ e. e ≡ OutOfMemory) }
        ensures refused { IfErr result
            (λ e. (e ≡ OutOfMemory) ⊎ ((e ≡ Toml) × (parse_document text.now ≡ None))
            ⊎ ((ms : Members) × (parse_document text.now ≡ Some ms) × IsFault ms e)) }
    {
        let table = read_table(alloc, text)?;
        Workload::from_table(alloc, &table)
    }
}
