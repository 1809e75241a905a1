//! Which operations may leave a value in a register, and which have to find it there.
ghost use Rattle.std.specs.Prelude.{◌≡◌, ℕ, IfOk, IfSome, OnOk};
ghost use Rattle.std.specs.BTreeMap.{get};
ghost use Rattle.reg_base.specs.declared.memory.OpId.{OpId as AnyId};
ghost use Rattle.reg_outcomes.specs.Losing.{value_cmp};
ghost use Rattle.reg_outcomes.specs.Forced.{AreMakers, HasMaker, IsMakerCalled, IsReader, Covers};

use crate::orders::finder::Finder;
use crate::orders::uses::{asked_by, made};
use reg_base::OpId;
use reg_checkers::Entry;
use std::alloc::{AllocError, Allocator};
use std::collections::BTreeMap;

/// The operations that may leave a value in a register.
#[derive(Clone, Copy)]
pub(crate) enum Maker {
    /// This one alone.
    Only(OpId),
    Several,
}

/// By register and value the operations that may leave it there.
pub(crate) type Makers<A> = BTreeMap<(u16, u64), Maker, A>;

/// The operations that may leave a value, with one more.
fn with_maker(before: Option<Maker>, id: OpId) -> Maker
    ensures here { Covers result id }
    ensures kept { IfSome before (λ m. (x : AnyId) → Covers m x → Covers result x) }
{
    match before {
        None => Maker::Only(id),
        Some(_) => Maker::Several,
    }
}

/// The operations that are noted to leave a value in a register.
fn maker_at<A: Allocator + Copy>(makers: &Makers<A>, value: (u16, u64)) -> Option<Maker>
    ensures { result ≡ get value_cmp makers.now value }
{
    makers.get(&value).copied()
}

/// Notes that an operation may leave a value in a register.
fn note<A: Allocator + Copy>(
    makers: &mut Makers<A>,
    value: (u16, u64),
    id: OpId,
) -> Result<(), AllocError>
    ensures noted { OnOk result (HasMaker makers.new value id) }
    ensures kept { OnOk result ((q : ℕ × ℕ) (x : AnyId) → HasMaker makers.old q x → HasMaker makers.new q x) }
{
    let maker = with_maker(maker_at(makers, value), id);
    makers.insert(value, maker)?;
    Ok(())
}

/// Notes the value that the operation of an entry may leave, if it is a call.
fn note_entry<A: Allocator + Copy>(makers: &mut Makers<A>, entry: Entry) -> Result<(), AllocError>
    ensures noted { OnOk result (IsMakerCalled makers.new entry) }
    ensures kept { OnOk result ((q : ℕ × ℕ) (x : AnyId) → HasMaker makers.old q x → HasMaker makers.new q x) }
{
    let Entry::Called { id, op, .. } = entry else {
        return Ok(());
    };
    let Some(value) = made(op) else {
        return Ok(());
    };
    note(makers, (op.register(), value), id)
}

/// By register and value the operations of a history that may leave it there.
pub(crate) fn makers_of<A: Allocator + Copy>(
    alloc: A,
    finder: &Finder<'_, A>,
) -> Result<Makers<A>, AllocError>
    ensures { IfOk result (AreMakers finder.now.entries) }
{
    let mut makers = BTreeMap::new(alloc);
    let entries = finder.entries();
    for place in 0..entries.len() {
        note_entry(&mut makers, entries[place])?;
    }
    Ok(makers)
}

/// A finished operation that has to find a value, and the operations that may leave it.
#[derive(Clone, Copy)]
pub(crate) struct Reader {
    pub(crate) id: OpId,
    pub(crate) value: (u16, u64),
    /// None where no operation leaves the value.
    pub(crate) source: Option<Maker>,
}

/// What an operation has to find, None where it is not finished, or may find any value.
pub(crate) fn reader_of<A: Allocator + Copy>(
    finder: &Finder<'_, A>,
    makers: &Makers<A>,
    id: OpId,
) -> Option<Reader>
    requires { AreMakers finder.now.entries makers.now }
    ensures { IfSome result (IsReader finder.now.entries) }
{
    let Some(value) = asked_by(finder, id) else {
        return None;
    };
    Some(Reader {
        id,
        value,
        source: maker_at(makers, value),
    })
}
