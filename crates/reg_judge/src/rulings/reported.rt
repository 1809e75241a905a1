//! What a report's history comes to. The report's own order and points are not looked at.
ghost use Rattle.std.specs.Prelude.{IfOk, List};
ghost use Rattle.reg_judge.specs.declared.rulings.rows.Row.{Row as AnyRow};
ghost use Rattle.reg_judge.specs.Instead.{AreToldOf};
ghost use Rattle.reg_judge.specs.Reported.{AreRowsOf, IsJudgedReport, SerialFound};
ghost use Rattle.reg_judge.specs.Rulings.{IsSought, found_in};

use crate::rulings::faults::RuleFault;
use crate::rulings::history_rows::rows_of;
use crate::rulings::instead::possible_all;
use crate::rulings::keys::{Ruling, rule_all};
use crate::rulings::search::{Sought, seek_by};
use crate::rulings::serial::{Serial, seek_serial};
use reg_base::Answer;
use reg_checkers::History;
use reg_history::Report;
use std::alloc::{AllocError, Allocator};

/// What was found out of a report's history.
#[derive(Drop)]
pub struct Judgement<A: Allocator + Copy> {
    /// A point order, or the first answer that none explains.
    pub sought: Sought<A>,
    /// The same of each register by itself, by number.
    pub rulings: Vec<Ruling, A>,
    /// What might have been answered at the first answer of each register that none explains, if it was looked for.
    pub possible: Vec<Option<Vec<Answer, A>>, A>,
    /// Whether there is a serial order, None where there is a point order, which is one.
    pub serial: Option<Serial>,
}

/// Whether there is a serial order, where no point order was found.
fn serial_of<A: Allocator + Copy>(
    alloc: A,
    history: &History<A>,
    sought: &Sought<A>,
) -> Result<Option<Serial>, AllocError>
    ensures { IfOk result (SerialFound history.now.shape.registers history.now.entries (found_in sought.now)) }
{
    match sought {
        Sought::Points(_) => Ok(None),
        Sought::None { place: _ } => Ok(Some(seek_serial(alloc, history)?)),
    }
}

/// What a report's history comes to. A register's part is judged as a history of that register alone.
///
/// # Errors
///
/// `TooWide` names the event at which the search for a point order had too many stages; `Full`, `OutOfPlace` and
/// `Unchecked`: that they ever come, no clause says. None says anything of the history.
pub fn judge_report<A: Allocator + Copy>(
    alloc: A,
    report: &Report<A>,
) -> Result<Judgement<A>, RuleFault>
    ensures judged { IfOk result (λ j. IsJudgedReport report.now (found_in j.sought) j.rulings.items j.serial) }
    ensures instead { IfOk result
        (λ j. (rows : List AnyRow) × AreRowsOf report.now.entries rows
        × AreToldOf report.now.shape.processes rows j.rulings.items j.possible.items) }
{
    let history = report.history();
    let shape = history.shape();
    let rows = rows_of(alloc, history)?;
    let processes = shape.processes() as usize;
    let rulings = rule_all(alloc, processes, shape.registers(), &rows)?;
    let possible = possible_all(alloc, processes, &rows, &rulings)?;
    let sought = seek_by(alloc, history, &rulings)?;
    let serial = serial_of(alloc, history, &sought)?;
    Ok(Judgement {
        sought,
        rulings,
        possible,
        serial,
    })
}
