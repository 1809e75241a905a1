//! Laws of single runs, in which a front end doesn't keep the real time of two operations. An operation overtakes one
//! that was answered before its call, if every serial order of the history has it before that one. Each law is a
//! function that does nothing: its contract is the law. The operations are named by process and number.
ghost use Rattle.std.specs.Prelude.{ℕ, List};
ghost use Rattle.reg_base.specs.declared.memory.OpId.{OpId};
ghost use Rattle.reg_front.specs.Table.{local_read, local_write};
ghost use Rattle.reg_checkers.specs.declared.entries.Entry.{Entry};
ghost use Rattle.reg_checkers.specs.declared.entries.Point.{Point};
ghost use Rattle.reg_checkers.specs.History.{IsHistory};
ghost use Rattle.reg_checkers.specs.Orders.{IsPointOrder};
ghost use Rattle.reg_world.specs.World.{op_id};
ghost use Rattle.reg_records.specs.Overtaking.{Gives, Overtakes};
ghost use Rattle.reg_records.specs.Runs.{stale_read, stale_read_history, stale_after_swap, stale_after_swap_history};
ghost use Rattle.reg_records.specs.Runs.{stale_after_cas, stale_after_cas_history, new_then_old, new_then_old_history};
ghost use Rattle.reg_records.specs.Runs.{new_then_old_at_once_history, unseen_write, unseen_write_history};
ghost use Rattle.reg_records.specs.Runs.{overtaking_swap, overtaking_swap_history, overtaking_cas};
ghost use Rattle.reg_records.specs.Runs.{overtaking_cas_history, overtaking_write, overtaking_write_history};

/// With `local-read` a read overtakes a write.
pub fn local_read_write_then_read()
    ensures run { Gives local_read 3 1 stale_read stale_read_history }
    ensures overtaken { Overtakes 1 stale_read_history (op_id 1 0) (op_id 0 0) }
{}

/// With `local-read` and with `local-write` a read overtakes a swap.
pub fn swap_then_read()
    ensures local_read { Gives local_read 3 1 stale_after_swap stale_after_swap_history }
    ensures local_write { Gives local_write 3 1 stale_after_swap stale_after_swap_history }
    ensures overtaken { Overtakes 1 stale_after_swap_history (op_id 1 0) (op_id 0 0) }
{}

/// With `local-read` and with `local-write` a read overtakes a compare-and-swap that found the expected value.
pub fn compare_and_swap_then_read()
    ensures local_read { Gives local_read 3 1 stale_after_cas stale_after_cas_history }
    ensures local_write { Gives local_write 3 1 stale_after_cas stale_after_cas_history }
    ensures overtaken { Overtakes 1 stale_after_cas_history (op_id 1 0) (op_id 0 0) }
{}

/// With `local-read` a read of the old value overtakes one of the new value.
pub fn local_read_read_then_read()
    ensures run { Gives local_read 3 1 new_then_old new_then_old_history }
    ensures overtaken { Overtakes 1 new_then_old_history (op_id 2 0) (op_id 1 0) }
{}

/// With `local-write` a read overtakes a write.
pub fn local_write_write_then_read()
    ensures run { Gives local_write 2 1 unseen_write unseen_write_history }
    ensures overtaken { Overtakes 1 unseen_write_history (op_id 1 0) (op_id 0 0) }
{}

/// With `local-write` a swap overtakes a write.
pub fn local_write_write_then_swap()
    ensures run { Gives local_write 2 1 overtaking_swap overtaking_swap_history }
    ensures overtaken { Overtakes 1 overtaking_swap_history (op_id 0 0) (op_id 1 0) }
{}

/// With `local-write` a compare-and-swap overtakes a write: it finds the value that the write replaced.
pub fn local_write_write_then_compare_and_swap()
    ensures run { Gives local_write 2 1 overtaking_cas overtaking_cas_history }
    ensures overtaken { Overtakes 1 overtaking_cas_history (op_id 0 0) (op_id 1 0) }
{}

/// With `local-write` a write overtakes a write, and a read tells.
pub fn local_write_write_then_write()
    ensures run { Gives local_write 2 1 overtaking_write overtaking_write_history }
    ensures overtaken { Overtakes 1 overtaking_write_history (op_id 0 0) (op_id 1 0) }
{}

/// With `local-write` a read of the old value overtakes one of the new value.
pub fn local_write_read_then_read()
    ensures run { Gives local_write 3 1 new_then_old new_then_old_at_once_history }
    ensures overtaken { Overtakes 1 new_then_old_at_once_history (op_id 2 0) (op_id 1 0) }
{}

/// A history in which an operation overtakes another has no point order: so neither `local-read` nor `local-write` is
/// linearizable.
pub fn no_points()
    ensures all { (n registers : ℕ) (h : List Entry) (a b : OpId) → IsHistory n registers h → Overtakes registers h b a
        → (points : List Point) → ¬ (IsPointOrder registers h points) }
    ensures local_read { (points : List Point) → ¬ (IsPointOrder 1 stale_read_history points) }
    ensures local_write { (points : List Point) → ¬ (IsPointOrder 1 unseen_write_history points) }
{}
