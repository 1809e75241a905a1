//! Laws of histories and their orders. Each is a function that does nothing: its contract is the law.
ghost use Rattle.std.specs.Prelude.{List, ℕ, ◌-◌, ◌<◌, ◌≢◌, ◌↔◌, IfSome, length, map, slice_get};
ghost use Rattle.reg_base.specs.declared.memory.Op.{Op};
ghost use Rattle.reg_base.specs.declared.memory.OpId.{OpId};
ghost use Rattle.reg_base.specs.declared.memory.Answer.{Answer};
ghost use Rattle.reg_checkers.specs.declared.entries.Entry.{Entry};
ghost use Rattle.reg_checkers.specs.declared.entries.Point.{Point};
ghost use Rattle.reg_checkers.specs.declared.faults.CheckFault.{CheckFault};
ghost use Rattle.reg_checkers.specs.declared.faults.CheckFault.TheVariants.{OutOfMemory};
ghost use Rattle.reg_checkers.specs.History.{IsAt, IsCalled, IsAnswered, IsHistory, event_of};
ghost use Rattle.reg_checkers.specs.Orders.{IsSerial, IsPointOrder};
ghost use Rattle.reg_checkers.specs.Checks.{IsSerialFault, IsPointFault};

/// In a point order an operation that was answered at an event before another's call stands before it.
pub fn point_order_respects_time()
    ensures { (registers : ℕ) (h : List Entry) (ps : List Point) → IsPointOrder registers h ps → (i j : ℕ) (p q : Point)
        → IsAt ps i p → IsAt ps j q
        → (s t : ℕ) (answer : Answer) (op : Op) → IsAnswered h p.id s answer → IsCalled h q.id t op → s < t → i < j }
{}

/// The operations of a point order of a history are a serial order of it.
pub fn point_order_is_serial()
    ensures { (n registers : ℕ) (h : List Entry) (ps : List Point) → IsHistory n registers h
        → IsPointOrder registers h ps → IsSerial registers h (map (λ p. p.id) ps) }
{}

/// Where a fault other than `OutOfMemory` holds, the ids are no serial order, and the points no point order. So a check
/// that has memory enough says yes exactly for orders.
pub fn fault_is_no_order()
    ensures serial { (n registers : ℕ) (h : List Entry) → IsHistory n registers h → (ids : List OpId) (f : CheckFault)
        → f ≢ OutOfMemory → IsSerialFault registers h ids f → ¬ IsSerial registers h ids }
    ensures points { (n registers : ℕ) (h : List Entry) → IsHistory n registers h → (ps : List Point) (f : CheckFault)
        → f ≢ OutOfMemory → IsPointFault registers h ps f → ¬ IsPointOrder registers h ps }
{}

/// An event is later than all entries of a history exactly where it is later than the last one.
pub fn later_than_the_last_is_later_than_all()
    ensures { (n registers : ℕ) (h : List Entry) → IsHistory n registers h → (at : ℕ)
        → ((k : ℕ) (e : Entry) → IsAt h k e → event_of e < at)
        ↔ IfSome (slice_get h (length h - 1)) (λ e. event_of e < at) }
{}
