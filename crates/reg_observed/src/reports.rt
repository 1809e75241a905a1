//! The report of a history that has a point order.
ghost use Rattle.std.specs.Prelude.{◌≡◌, ◌<◌, IfOk};
ghost use Rattle.reg_judge.specs.Reported.{IsReportOf};

use crate::faults::JudgeFault;
use reg_base::Names;
use reg_checkers::{History, Point, ids_of_points};
use reg_history::Report;
use std::alloc::{AllocError, Global};

/// The word that stands in a report for the front end, which is not known.
const FRONT: &str = "observed";

/// The letter of this number, from 0 for a on.
fn letter(number: u32) -> char {
    char::from(b'a' + (number % 26) as u8)
}

/// The name of the register of this number: a for 0 and so on to z, then aa, ab and so on.
fn name_of(global: Global, number: u32) -> Result<String, AllocError> {
    let mut name = String::new(global);
    if number >= 702 {
        name.push(letter((number - 702) / 676))?;
    }
    if number >= 26 {
        name.push(letter((number - 26) / 26))?;
    }
    name.push(letter(number))?;
    Ok(name)
}

/// The names of so many registers.
fn names_of(global: Global, registers: u32) -> Result<Vec<String>, AllocError> {
    let mut names = Vec::new(global);
    for number in 0..registers {
        names.push(name_of(global, number)?)?;
    }
    Ok(names)
}

/// The report of a history with these points, which are its order too. Its registers have new names.
///
/// # Errors
///
/// `NoReport` where the parts are no report: that it never comes, no clause says.
pub(crate) fn report_of(
    global: Global,
    history: History<Global>,
    points: Vec<Point>,
) -> Result<Report<Global>, JudgeFault>
    ensures { IfOk result (IsReportOf history.shape.registers history.entries points.items) }
{
    let names = names_of(global, history.shape().registers())?;
    let Ok(names) = Names::new(names) else {
        return Err(JudgeFault::NoReport);
    };
    let front = String::from_str(global, FRONT)?;
    let order = ids_of_points(global, &points)?;
    match Report::new(front, names, history, order, Some(points)) {
        Ok(report) => Ok(report),
        Err(_) => Err(JudgeFault::NoReport),
    }
}
