//! Rules by which one operation has to come before another in each serial order.
ghost use Rattle.std.specs.Prelude.{◌≡◌, List, IfSome, IsTrue};
ghost use Rattle.reg_base.specs.declared.memory.OpId.{OpId as AnyId};
ghost use Rattle.reg_checkers.specs.declared.entries.Entry.{Entry};
ghost use Rattle.reg_checkers.specs.History.{IsFinished, IsHistory};
ghost use Rattle.reg_outcomes.specs.Forced.{AreForced, Comes, Covers, IsMaker, IsOnlyMaker, IsReader, Overwrites};
ghost use Rattle.reg_outcomes.specs.Sought.{Sought as AnySought};

use crate::orders::before::{Before, join};
use crate::orders::finder::Finder;
use crate::orders::sources::{Maker, Reader};
use crate::orders::uses::left_by;
use reg_base::OpId;
use std::alloc::Allocator;

/// Whether an operation is finished.
pub(crate) fn is_finished<A: Allocator + Copy>(finder: &Finder<'_, A>, id: OpId) -> bool
    ensures { IsTrue result → IsFinished finder.now.entries id }
{
    match finder.fact(id) {
        Some(fact) => fact.answered.is_some(),
        None => false,
    }
}

/// Whether an operation surely leaves another value than this in this register.
fn overwrites<A: Allocator + Copy>(finder: &Finder<'_, A>, id: OpId, value: (u16, u64)) -> bool
    ensures { IsTrue result → Overwrites finder.now.entries id value }
{
    let Some(fact) = finder.fact(id) else {
        return false;
    };
    let Some(left) = left_by(fact) else {
        return false;
    };
    if left == value.1 {
        return false;
    }
    fact.op.register() == value.0
}

/// The one operation of these, None where they are several.
fn only_of(maker: Maker) -> Option<OpId>
    ensures { IfSome result (λ w. (x : AnyId) → Covers maker x → x ≡ w) }
{
    match maker {
        Maker::Only(source) => Some(source),
        Maker::Several => None,
    }
}

/// The operation that alone may leave what a reader finds. Where none may, it is the reader itself, which finds that in
/// no order. None where several may.
fn source_of(reader: Reader) -> Option<OpId>
    ensures { (h : List Entry) → IsReader h reader → IfSome result (IsOnlyMaker h reader.value) }
{
    match reader.source {
        Some(maker) => only_of(maker),
        None => Some(reader.id),
    }
}

/// The source comes before the reader, if the value isn't the first one of the register.
pub(crate) fn put_source<A: Allocator + Copy>(
    finder: &Finder<'_, A>,
    before: &mut Before<A>,
    reader: Reader,
) -> bool
    requires history { IsHistory finder.now.shape.processes finder.now.shape.registers finder.now.entries }
    requires reader { IsReader finder.now.entries reader }
    requires forced { AreForced finder.now before.old }
    ensures { AreForced finder.now before.new }
{
    let Some(source) = source_of(reader) else {
        return false;
    };
    if reader.value.1 == 0 {
        return false;
    }
    if !is_finished(finder, source) {
        return false;
    }
    join(finder, before, source, reader.id)
}

/// What overwrites the register before the reader comes before the source. Where that is noted, the rest is left to
/// `put_known`.
pub(crate) fn put_before_source<A: Allocator + Copy>(
    finder: &Finder<'_, A>,
    before: &mut Before<A>,
    reader: Reader,
    other: OpId,
) -> bool
    requires history { IsHistory finder.now.shape.processes finder.now.shape.registers finder.now.entries }
    requires reader { IsReader finder.now.entries reader }
    requires forced { AreForced finder.now before.old }
    ensures { AreForced finder.now before.new }
{
    let Some(source) = source_of(reader) else {
        return false;
    };
    if !before.has(other, reader.id) {
        return false;
    }
    if before.has(other, source) {
        return false;
    }
    if !overwrites(finder, other, reader.value) {
        return false;
    }
    if !is_finished(finder, other) {
        return false;
    }
    join(finder, before, other, source)
}

/// Whether all these makers come before an operation.
fn is_behind<A: Allocator + Copy>(before: &Before<A>, maker: Maker, other: OpId) -> bool
    ensures { (s : AnySought) → IsTrue result → AreForced s before.now → (x : AnyId) → Covers maker x
        → Comes s x other }
{
    match maker {
        Maker::Only(source) => before.has(source, other),
        Maker::Several => false,
    }
}

/// Whether all that may leave what a reader finds comes before an operation.
fn is_behind_source<A: Allocator + Copy>(before: &Before<A>, reader: Reader, other: OpId) -> bool
    ensures { (s : AnySought) → IsTrue result → IsReader s.entries reader → AreForced s before.now → (x : AnyId)
        → IsMaker s.entries reader.value x → Comes s x other }
{
    match reader.source {
        Some(maker) => is_behind(before, maker, other),
        None => true,
    }
}

/// What overwrites the register after the source comes after the reader. Where that is noted, the rest is left to
/// `put_known`.
pub(crate) fn put_behind_reader<A: Allocator + Copy>(
    finder: &Finder<'_, A>,
    before: &mut Before<A>,
    reader: Reader,
    other: OpId,
) -> bool
    requires history { IsHistory finder.now.shape.processes finder.now.shape.registers finder.now.entries }
    requires reader { IsReader finder.now.entries reader }
    requires forced { AreForced finder.now before.old }
    ensures { AreForced finder.now before.new }
{
    if other == reader.id {
        return false;
    }
    if before.has(reader.id, other) {
        return false;
    }
    if !is_behind_source(before, reader, other) {
        return false;
    }
    if !overwrites(finder, other, reader.value) {
        return false;
    }
    join(finder, before, reader.id, other)
}

/// The last operation of a process that is known to come before another comes with all that comes before itself.
pub(crate) fn put_known<A: Allocator + Copy>(
    finder: &Finder<'_, A>,
    before: &mut Before<A>,
    id: OpId,
    process: u8,
) -> bool
    requires forced { AreForced finder.now before.old }
    ensures { AreForced finder.now before.new }
{
    let last = OpId {
        process,
        number: before.known(id, process).saturating_sub(1),
    };
    if !before.has(last, id) {
        return false;
    }
    if !is_finished(finder, last) {
        return false;
    }
    join(finder, before, last, id)
}
