//! The orders of a run's operations: its witness, and under a real-time front end their points.
ghost use Rattle.std.specs.Prelude.{◌≡◌, ◌<◌, IfOk};
ghost use Rattle.reg_checkers.specs.History.{IsHistory};
ghost use Rattle.reg_checkers.specs.Orders.{IsSerial, IsPointOrder};
ghost use Rattle.reg_world.specs.Keys.{IsWitness, ArePoints};
ghost use Rattle.reg_world.specs.RealTime.{AnswersNothingFirst, KeepsUpdates, KeepsAllUpdates};
ghost use Rattle.reg_world.specs.World.{run_of};
ghost use Rattle.reg_world.specs.Worlds.{run_in};

use crate::running::World;
use crate::stores::WireStore;
use crate::witnesses::{points_of, witness_of};
use reg_base::OpId;
use reg_checkers::{History, Point};
use reg_front::{FrontEnd, RealTime};
use std::alloc::{AllocError, Allocator};

impl<F: FrontEnd, A: Allocator + Copy, W: WireStore<A>> World<F, A, W> {
    /// The operations that are finished, and the updates that some process has delivered, in one order. Delivered casts
    /// stand as in `order`, a read from a copy stands before the cast at its place there, and the finished casts that
    /// were delivered nowhere stand last, by stamp.
    ///
    /// It is a serial order of the history: the history is sequentially consistent (Lamport 1979). An operation that
    /// may change the memory stands after each that was answered before its call, except those that the front end may
    /// answer before their delivery. Where the front end answers no operation before its delivery, there is no
    /// exception.
    ///
    /// # Errors
    ///
    /// Memory was refused.
    pub fn witness(&self) -> Result<Vec<OpId, A>, AllocError>
        ensures keyed { IfOk result (λ ids. IsWitness (run_of self.now.registers (run_in F.start self.now)) ids.items) }
        ensures serial { IfOk result (λ ids. IsSerial self.now.registers (run_in F.start self.now).history ids.items) }
        ensures real_time { IfOk result (λ ids. KeepsUpdates F.start (run_in F.start self.now).history ids.items) }
        ensures nothing_first { AnswersNothingFirst F.start
            → IfOk result (λ ids. KeepsAllUpdates (run_in F.start self.now).history ids.items) }
    {
        witness_of(
            self.alloc,
            self.book.order(),
            self.book.reads(),
            self.book.callers(),
        )
    }

    /// The history, and the operations of `witness`, a serial order of it: the history is sequentially consistent. An
    /// operation that may change the memory stands after each that was answered before its call, except those that the
    /// front end may answer before their delivery. Where the front end answers no operation before its delivery, there
    /// is no exception. To believe this takes the definitions of histories, of their orders and of the front end, and
    /// none of a run.
    ///
    /// # Errors
    ///
    /// Memory was refused.
    pub fn serial_order(&self) -> Result<(&History<A>, Vec<OpId, A>), AllocError>
        ensures shape { IfOk result (λ r. r.0.now.shape
            ≡ record { processes = self.now.processes; registers = self.now.registers }) }
        ensures value { IfOk result (λ r. r.0.now.entries ≡ self.now.history) }
        ensures history { IfOk result (λ r. IsHistory r.0.now.shape.processes r.0.now.shape.registers r.0.now.entries) }
        ensures serial { IfOk result (λ r. IsSerial r.0.now.shape.registers r.0.now.entries r.1.items) }
        ensures real_time { IfOk result (λ r. KeepsUpdates F.start r.0.now.entries r.1.items) }
        ensures nothing_first { AnswersNothingFirst F.start
            → IfOk result (λ r. KeepsAllUpdates r.0.now.entries r.1.items) }
        ensures keyed { IfOk result (λ r. IsWitness (run_of self.now.registers (run_in F.start self.now)) r.1.items) }
    {
        let ids = self.witness()?;
        let history = self.history();
        // (for the proof: by this getter's contract the history is one, each entry in place)
        history.entries();
        Ok((history, ids))
    }
}

impl<F: RealTime, A: Allocator + Copy, W: WireStore<A>> World<F, A, W> {
    /// The delivered casts that are updates or finished, each at the event of its first delivery. They are a point
    /// order of the history: the history is linearizable (Herlihy and Wing 1990). Each takes effect between its call
    /// and its answer, if it is answered.
    ///
    /// # Errors
    ///
    /// Memory was refused.
    pub fn points(&self) -> Result<Vec<Point, A>, AllocError>
        ensures first { IfOk result
            (λ points. ArePoints (run_of self.now.registers (run_in F.start self.now)) points.items) }
        ensures ordered { IfOk result
            (λ points. IsPointOrder self.now.registers (run_in F.start self.now).history points.items) }
    {
        points_of(self.alloc, self.book.order(), self.book.callers())
    }

    /// The history, and `points`, a linearization of it: the history is linearizable. Each operation there has a point
    /// between its call and its answer, if it is answered. To believe this takes the definitions of histories and their
    /// orders alone, and none of a run.
    ///
    /// # Errors
    ///
    /// Memory was refused.
    pub fn linearization(&self) -> Result<(&History<A>, Vec<Point, A>), AllocError>
        ensures shape { IfOk result (λ r. r.0.now.shape
            ≡ record { processes = self.now.processes; registers = self.now.registers }) }
        ensures value { IfOk result (λ r. r.0.now.entries ≡ self.now.history) }
        ensures history { IfOk result (λ r. IsHistory r.0.now.shape.processes r.0.now.shape.registers r.0.now.entries) }
        ensures points { IfOk result (λ r. IsPointOrder r.0.now.shape.registers r.0.now.entries r.1.items) }
        ensures first { IfOk result (λ r. ArePoints (run_of self.now.registers (run_in F.start self.now)) r.1.items) }
    {
        let points = self.points()?;
        let history = self.history();
        // (for the proof: by this getter's contract the history is one, each entry in place)
        history.entries();
        Ok((history, points))
    }
}
