//! Front ends from tables: how reads and writes start, with no own cast on its way and with some.
ghost use Rattle.std.specs.Prelude.{◌≡◌, ℕ, cond};
ghost use Rattle.reg_base.specs.declared.memory.Op.{Op as AnyOp};
ghost use Rattle.reg_front.specs.declared.starts.Start.{Start as AnyStart};
ghost use Rattle.reg_front.specs.declared.starts.Start.TheVariants.{Cast};
ghost use Rattle.reg_web.specs.Tables.{start_by, start_in, table_of};

use reg_base::Op;
use reg_front::{FrontEnd, Start};

/// A lawful table of how operations start. What a row doesn't say is cast and runs until its delivery, as every swap
/// and every compare-and-swap is. The sixteen values are all lawful tables.
#[derive(Clone, Copy)]
pub(crate) struct Table {
    /// With no own cast on its way a read looks at the copy.
    pub looks: bool,
    /// With own casts on their way a read is held for them, and then looks at the copy.
    pub holds: bool,
    /// With no own cast on its way a write is cast and answered at once.
    pub answers_first: bool,
    /// With own casts on their way a write is cast and answered at once.
    pub answers_later: bool,
}

impl Table {
    /// The table of a number: the sum of 1 where reads look, 2 where they are held, 4 where a first write is answered
    /// at once, and 8 where a later one is. What is above 15 in it is not looked at.
    pub fn numbered(number: u32) -> Table
        ensures { result ≡ table_of number }
    {
        Table {
            looks: number % 2 == 1,
            holds: number / 2 % 2 == 1,
            answers_first: number / 4 % 2 == 1,
            answers_later: number / 8 % 2 == 1,
        }
    }
}

/// The front end of a table.
pub(crate) struct FromTable<
    const LOOKS: bool,
    const HOLDS: bool,
    const ANSWERS_FIRST: bool,
    const ANSWERS_LATER: bool,
>;

impl<
    const LOOKS: bool,
    const HOLDS: bool,
    const ANSWERS_FIRST: bool,
    const ANSWERS_LATER: bool,
> FrontEnd for FromTable<LOOKS, HOLDS, ANSWERS_FIRST, ANSWERS_LATER> {
    ghost use Rattle.reg_web.specs.Tables.{rows_keep, start_by};

    ghost start = { start_by LOOKS HOLDS ANSWERS_FIRST ANSWERS_LATER };

    fn start(op: &Op, unsettled: u32) -> Start {
        match *op {
            Op::Read { register: _ } if unsettled == 0 => start_if(LOOKS, Start::Look),
            Op::Read { register: _ } => start_if(HOLDS, Start::Hold),
            Op::Write { .. } if unsettled == 0 => start_if(ANSWERS_FIRST, Start::CastAndAnswer),
            Op::Write { .. } => start_if(ANSWERS_LATER, Start::CastAndAnswer),
            Op::Swap { .. } | Op::CompareAndSwap { .. } => Start::Cast,
        }
    }

    ghost lawful = { rows_keep LOOKS HOLDS ANSWERS_FIRST ANSWERS_LATER };
}

/// This start where a row of the table says so, and else a cast.
fn start_if(is_so: bool, start: Start) -> Start
    ensures { result ≡ cond is_so start Cast }
{
    if is_so { start } else { Start::Cast }
}

/// What is done under a front end.
pub(crate) trait Task: Drop {
    /// What comes of it.
    type Told;

    /// What may come of it where operations start so.
    ghost Comes: { Self → (AnyOp → ℕ → AnyStart) → Self.Told → Type 0 };

    fn run<F: FrontEnd>(self) -> Self::Told
        ensures { Comes self F.start result };
}

impl Table {
    /// Does a task under the front end of the table.
    pub fn run<T: Task>(self, task: T) -> T::Told
        ensures { T.Comes task (start_in self) result }
    {
        if self.looks {
            self.run_looking::<true, T>(task)
        } else {
            self.run_looking::<false, T>(task)
        }
    }

    fn run_looking<const LOOKS: bool, T: Task>(self, task: T) -> T::Told
        ensures { T.Comes task (start_by LOOKS self.holds self.answers_first self.answers_later) result }
    {
        if self.holds {
            self.run_holding::<LOOKS, true, T>(task)
        } else {
            self.run_holding::<LOOKS, false, T>(task)
        }
    }

    fn run_holding<const LOOKS: bool, const HOLDS: bool, T: Task>(self, task: T) -> T::Told
        ensures { T.Comes task (start_by LOOKS HOLDS self.answers_first self.answers_later) result }
    {
        if self.answers_first {
            self.run_answering::<LOOKS, HOLDS, true, T>(task)
        } else {
            self.run_answering::<LOOKS, HOLDS, false, T>(task)
        }
    }

    fn run_answering<const LOOKS: bool, const HOLDS: bool, const ANSWERS_FIRST: bool, T: Task>(
        self,
        task: T,
    ) -> T::Told
        ensures { T.Comes task (start_by LOOKS HOLDS ANSWERS_FIRST self.answers_later) result }
    {
        if self.answers_later {
            task.run::<FromTable<LOOKS, HOLDS, ANSWERS_FIRST, true>>()
        } else {
            task.run::<FromTable<LOOKS, HOLDS, ANSWERS_FIRST, false>>()
        }
    }
}
