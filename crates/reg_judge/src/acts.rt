//! What an operation asks of the value of its register, and what it leaves there.
ghost use Rattle.std.specs.Prelude.{◌≡◌, ◌↔◌, IsTrue};
ghost use Rattle.reg_judge.specs.declared.acts.Ask.TheVariants.{Anything as AsksAnything};
ghost use Rattle.reg_judge.specs.Acts.{act_in as act_in_rows, alone_in, asked as asked_by, made as made_by, made_of};
ghost use Rattle.reg_judge.specs.Acts.{acting, goes_by as by_ask, Suits, Fits, value_after as after_act};

use reg_base::{Answer, Op, OpId};
use reg_checkers::{Fact, Given, fact_of};
use std::alloc::Allocator;

/// The values of its register at which an operation may come.
#[derive(Clone, Copy)]
pub enum Ask {
    /// At every value.
    Anything,
    /// At this value alone.
    Just(u64),
    /// At every value but this one.
    AllBut(u64),
}

/// What an operation asks of the value of its register, and what it leaves there.
#[derive(Clone, Copy)]
pub struct Act {
    pub register: u16,
    /// The values that the register may have: of a finished read or swap its answer, of a compare-and-swap the expected
    /// one, or, where it is answered that the value was unequal, all others.
    pub asks: Ask,
    /// The value that the register has then: of a write, a swap, or a compare-and-swap that is not answered so, its
    /// value.
    pub makes: Option<u64>,
}

/// The value that an operation leaves, None where it leaves all as it is.
pub(crate) fn made_alone(op: Op) -> Option<u64>
    ensures { result ≡ made_of op }
{
    match op {
        Op::Read { .. } => None,
        Op::Write { value, .. } => Some(value),
        Op::Swap { value, .. } => Some(value),
        Op::CompareAndSwap { value, .. } => Some(value),
    }
}

/// The value that an operation leaves where it has this answer, None where it leaves all as it is.
pub(crate) fn made(op: Op, answer: Answer) -> Option<u64>
    ensures { result ≡ made_by op answer }
{
    match op {
        Op::CompareAndSwap { value, .. } => match answer {
            Answer::Unequal => None,
            Answer::Done => Some(value),
            Answer::Value(_) => Some(value),
        },
        Op::Read { .. } | Op::Write { .. } | Op::Swap { .. } => made_alone(op),
    }
}

/// The values at which an operation may come where it has this answer.
fn asked(op: Op, answer: Answer) -> Ask
    ensures { result ≡ asked_by op answer }
{
    match answer {
        Answer::Value(value) => Ask::Just(value),
        Answer::Done => match op {
            Op::CompareAndSwap { expected, .. } => Ask::Just(expected),
            Op::Read { .. } | Op::Write { .. } | Op::Swap { .. } => Ask::Anything,
        },
        Answer::Unequal => match op {
            Op::CompareAndSwap { expected, .. } => Ask::AllBut(expected),
            Op::Read { .. } | Op::Write { .. } | Op::Swap { .. } => Ask::Anything,
        },
    }
}

/// What an operation asks and leaves, by the answer that it has in the end. Without an answer it does what it does
/// where it is done, if it takes effect at all; None for a read, which asks nothing then and leaves nothing.
fn act_by_answer(op: Op, answered: Option<Given>) -> Option<Act>
    ensures { result ≡ acting op answered }
{
    match answered {
        Some(given) => Some(Act {
            register: op.register(),
            asks: asked(op, given.answer),
            makes: made(op, given.answer),
        }),
        None => {
            let makes = made_alone(op)?;
            Some(Act {
                register: op.register(),
                asks: asked(op, Answer::Done),
                makes: Some(makes),
            })
        }
    }
}

/// What the operation of this id asks and leaves, None where the table has none, or it is a read without an answer.
pub fn act_in<A: Allocator + Copy>(rows: &[Vec<Fact, A>], id: OpId) -> Option<Act>
    ensures { result ≡ act_in_rows rows.now id }
{
    let fact = fact_of(rows, id)?;
    act_by_answer(fact.op, fact.answered)
}

/// What the operation of this id asks and leaves, None where it is answered, or asks nothing and leaves nothing.
pub fn unanswered_act_in<A: Allocator + Copy>(rows: &[Vec<Fact, A>], id: OpId) -> Option<Act>
    ensures { result ≡ alone_in rows.now id }
{
    let fact = fact_of(rows, id)?;
    match fact.answered {
        Some(_) => None,
        None => act_by_answer(fact.op, None),
    }
}

impl Ask {
    /// Whether an operation that asks so may come at this value.
    fn suits(&self, value: u64) -> bool
        ensures { IsTrue result ↔ Suits self.now value }
    {
        match *self {
            Ask::Anything => true,
            Ask::Just(only) => only == value,
            Ask::AllBut(other) => other != value,
        }
    }

    /// What it goes by: by one value, by any value, or by none.
    pub fn goes_by(&self) -> Option<Option<u64>>
        ensures { result ≡ by_ask self.now }
    {
        match *self {
            Ask::Anything => None,
            Ask::Just(only) => Some(Some(only)),
            Ask::AllBut(_) => Some(None),
        }
    }
}

impl Act {
    /// Whether the operation may come where its register has this value.
    pub fn fits(&self, value: u64) -> bool
        ensures { IsTrue result ↔ Fits self.now value }
    {
        self.asks.suits(value)
    }

    /// Whether the operation may come at every value.
    pub fn asks_nothing(&self) -> bool
        ensures { IsTrue result → self.now.asks ≡ AsksAnything }
    {
        match self.asks {
            Ask::Anything => true,
            Ask::Just(_) => false,
            Ask::AllBut(_) => false,
        }
    }

    /// The value of the register after the operation, where it was this one before.
    pub fn value_after(&self, value: u64) -> u64
        ensures { result ≡ after_act self.now value }
    {
        self.makes.unwrap_or(value)
    }
}
