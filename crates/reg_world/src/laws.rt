//! Laws of all runs, for every list of events and every lawful front end. Each is a function that does nothing: its
//! contract is the law.
ghost use Rattle.std.specs.Prelude.{ℕ, is_some, not, ◌≡◌, ◌≤◌, ◌++◌, List, [], ◌∷◌, length};
ghost use Rattle.reg_base.specs.declared.limits.TheConstants.{MOST_EVENTS};
ghost use Rattle.reg_base.specs.declared.memory.Op.{Op};
ghost use Rattle.reg_base.specs.declared.memory.Op.TheVariants.{Read, Swap, CompareAndSwap};
ghost use Rattle.reg_base.specs.declared.memory.OpId.{OpId};
ghost use Rattle.reg_front.specs.declared.starts.Start.{Start};
ghost use Rattle.reg_base.specs.Memory.{IsBlind};
ghost use Rattle.reg_front.specs.Fronts.{KeepsLaws, CastsAll};
ghost use Rattle.reg_front.specs.Table.{linear, local_read};
ghost use Rattle.reg_checkers.specs.declared.entries.Entry.{Entry};
ghost use Rattle.reg_checkers.specs.declared.entries.Point.{Point};
ghost use Rattle.reg_checkers.specs.History.{IsHistory};
ghost use Rattle.reg_checkers.specs.Orders.{IsSerial, IsPointOrder};
ghost use Rattle.reg_process.specs.declared.events.Event.{Event};
ghost use Rattle.reg_world.specs.Keys.{IsWitness, ArePoints};
ghost use Rattle.reg_world.specs.Laws.{DeliveriesAgree, DeliveriesRise, DeliveriesMade, UndeliveredAbove, NoRefusal};
ghost use Rattle.reg_world.specs.Laws.{AllAcknowledged, IsQuiescent};
ghost use Rattle.reg_world.specs.Promises.{OrderIsLongest, OrderIsRight, FirstsRight, CastsRight, RepliesRight};
ghost use Rattle.reg_world.specs.Promises.{ReadsRight};
ghost use Rattle.reg_world.specs.RealTime.{WaitsForDelivery, AnswersNothingFirst, KeepsUpdates, KeepsAllUpdates};
ghost use Rattle.reg_world.specs.RealTime.{KeepsOwnTime, KeepsRealTime};
ghost use Rattle.reg_world.specs.World.{World, run_of, move_of, moved, world_fault, whole};

/// The operations of a run that have a key, by rising key, are a serial order of its history.
pub fn witness_is_serial()
    ensures { (start : Op → ℕ → Start) (n registers : ℕ) (events : List Event) (ids : List OpId) → KeepsLaws start
        → IsWitness (run_of registers (whole start n registers events)) ids
        → IsSerial registers (whole start n registers events).history ids }
{}

/// In the order by rising key an operation that may change the memory stands after each that was answered before its
/// call, except those that the front end may answer before their delivery. Where the front end answers no operation
/// before its delivery, there is no exception. Where every operation is cast, each operation stands after those that
/// were answered before its call.
pub fn witness_keeps_updates()
    ensures updates { (start : Op → ℕ → Start) (n registers : ℕ) (events : List Event) (ids : List OpId)
        → KeepsLaws start → IsWitness (run_of registers (whole start n registers events)) ids
        → KeepsUpdates start (whole start n registers events).history ids }
    ensures all_updates { (start : Op → ℕ → Start) (n registers : ℕ) (events : List Event) (ids : List OpId)
        → KeepsLaws start → AnswersNothingFirst start
        → IsWitness (run_of registers (whole start n registers events)) ids
        → KeepsAllUpdates (whole start n registers events).history ids }
    ensures real_time { (start : Op → ℕ → Start) (n registers : ℕ) (events : List Event) (ids : List OpId)
        → CastsAll start → IsWitness (run_of registers (whole start n registers events)) ids
        → KeepsRealTime (whole start n registers events).history ids }
{}

/// In a serial order of a history each operation stands after those of its own process that were answered before its
/// call.
pub fn serial_order_keeps_own_time()
    ensures { (n registers : ℕ) (h : List Entry) (ids : List OpId) → IsHistory n registers h → IsSerial registers h ids
        → KeepsOwnTime h ids }
{}

/// Which operations a front end never answers before their delivery: a lawful one those whose answers tell of the
/// memory, as reads, swaps and compare-and-swaps do; and `linear` and `local-read` all.
pub fn what_waits()
    ensures tells { (start : Op → ℕ → Start) → KeepsLaws start → (op : Op) → ¬ (IsBlind op)
        → WaitsForDelivery start op }
    ensures read { (start : Op → ℕ → Start) → KeepsLaws start → (register : ℕ)
        → WaitsForDelivery start (Read register) }
    ensures swap { (start : Op → ℕ → Start) → KeepsLaws start → (register value : ℕ)
        → WaitsForDelivery start (Swap register value) }
    ensures compare_and_swap { (start : Op → ℕ → Start) → KeepsLaws start → (register expected value : ℕ)
        → WaitsForDelivery start (CompareAndSwap register expected value) }
    ensures linear { AnswersNothingFirst linear }
    ensures local_read { AnswersNothingFirst local_read }
{}

/// Where every operation is cast, the first deliveries of the casts that are updates or finished are a point order of
/// the history.
pub fn points_are_a_point_order()
    ensures { (start : Op → ℕ → Start) (n registers : ℕ) (events : List Event) (points : List Point) → CastsAll start
        → ArePoints (run_of registers (whole start n registers events)) points
        → IsPointOrder registers (whole start n registers events).history points }
{}

/// Each entry of a run's history is in place. The accepted events are no more than a run may have, and make the same
/// world.
pub fn history_in_place()
    ensures in_place { (start : Op → ℕ → Start) (n registers : ℕ) (events : List Event) → KeepsLaws start
        → IsHistory n registers (whole start n registers events).history }
    ensures few { (start : Op → ℕ → Start) (n registers : ℕ) (events : List Event) → KeepsLaws start
        → length (whole start n registers events).accepted ≤ MOST_EVENTS }
    ensures again { (start : Op → ℕ → Start) (n registers : ℕ) (events : List Event)
        → whole start n registers (whole start n registers events).accepted ≡ whole start n registers events }
{}

/// Each process delivers casts that were made, in the order of their stamps. Of what any two processes delivered, one
/// is a prefix of the other, and the order of first deliveries is the longest. A cast that a process hasn't delivered,
/// made already or later, has a stamp above all that it has delivered.
pub fn one_order()
    ensures agree { (start : Op → ℕ → Start) (n registers : ℕ) (events : List Event) → KeepsLaws start
        → DeliveriesAgree n (whole start n registers events).nodes }
    ensures rise { (start : Op → ℕ → Start) (n registers : ℕ) (events : List Event) → KeepsLaws start
        → DeliveriesRise n (whole start n registers events).nodes }
    ensures made { (start : Op → ℕ → Start) (n registers : ℕ) (events : List Event) → KeepsLaws start
        → DeliveriesMade n (whole start n registers events).nodes }
    ensures above { (start : Op → ℕ → Start) (n registers : ℕ) (events more : List Event) → KeepsLaws start
        → UndeliveredAbove n (whole start n registers events).nodes (whole start n registers (events ++ more)).nodes }
    ensures longest { (start : Op → ℕ → Start) (n registers : ℕ) (events : List Event) → KeepsLaws start
        → OrderIsLongest n (whole start n registers events) }
    ensures order { (start : Op → ℕ → Start) (n registers : ℕ) (events : List Event) → KeepsLaws start
        → OrderIsRight n (whole start n registers events) }
    ensures firsts { (start : Op → ℕ → Start) (n registers : ℕ) (events : List Event) → KeepsLaws start
        → FirstsRight start n registers (whole start n registers events) }
    ensures casts { (start : Op → ℕ → Start) (n registers : ℕ) (events : List Event) → KeepsLaws start
        → CastsRight n (whole start n registers events) }
{}

/// Each reply is the memory's after the first casts of the order, as many as its place says. The reads are exactly the
/// finished operations that made no cast. Where no frame is left unacknowledged, each process has delivered all casts,
/// none is busy, and all copies are equal.
pub fn one_memory()
    ensures replies { (start : Op → ℕ → Start) (n registers : ℕ) (events : List Event) → KeepsLaws start
        → RepliesRight start n registers (whole start n registers events) }
    ensures reads { (start : Op → ℕ → Start) (n registers : ℕ) (events : List Event) → KeepsLaws start
        → ReadsRight (whole start n registers events) }
    ensures quiescent { (start : Op → ℕ → Start) (n registers : ℕ) (events : List Event) → KeepsLaws start
        → AllAcknowledged n (whole start n registers events).nodes
        → IsQuiescent n (whole start n registers events).nodes }
{}

/// No frame on a wire is refused by its receiver. Each clock has a time left for a cast, and each link a number for a
/// frame.
pub fn none_refused()
    ensures { (start : Op → ℕ → Start) (n registers : ℕ) (events : List Event) → KeepsLaws start
        → NoRefusal n registers (whole start n registers events).nodes }
{}

/// An event is refused exactly where a fault applies. One more event is one more step of the same world.
pub fn refused_by_fault()
    ensures refused { (n registers : ℕ) (w : World) (e : Event)
        → is_some (move_of n registers w e) ≡ not (is_some (world_fault n registers w e)) }
    ensures next { (start : Op → ℕ → Start) (n registers : ℕ) (events : List Event) (e : Event)
        → whole start n registers (events ++ e ∷ [])
        ≡ moved start (whole start n registers events) e (move_of n registers (whole start n registers events) e) }
{}
