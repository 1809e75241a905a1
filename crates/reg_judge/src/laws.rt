//! Laws of histories, of their parts, and of what is found out of them. Each is a function that does nothing: its
//! contract is the law.
ghost use Rattle.std.specs.Prelude.{List, ℕ, ◌<◌, ◌↔◌, take, ◌≡◌, true, Option, Some, Result, slice_get};
ghost use Rattle.reg_checkers.specs.declared.entries.Entry.{Entry, Entry as AnyEntry};
ghost use Rattle.reg_checkers.specs.History.{IsHistory};
ghost use Rattle.reg_judge.specs.Alike.{AreAlike};
ghost use Rattle.reg_judge.specs.Judging.{HasPointOrder};
ghost use Rattle.reg_judge.specs.Parts.{part_at};
ghost use Rattle.std.specs.Result.{is_ok};
ghost use Rattle.reg_checkers.specs.declared.entries.Point.{Point as AnyPoint};
ghost use Rattle.reg_history.specs.Reports.{Contents};
ghost use Rattle.reg_judge.specs.declared.rulings.keys.Ruling.{Ruling as AnyRuling};
ghost use Rattle.reg_judge.specs.declared.rulings.keys.Ruling.TheVariants.{Linearizable};
ghost use Rattle.reg_judge.specs.declared.rulings.rows.Row.{Row as AnyRow};
ghost use Rattle.reg_judge.specs.declared.rulings.seats.Naming.{Naming as AnyNaming};
ghost use Rattle.reg_judge.specs.declared.rulings.serial.Serial.{Serial as AnySerial};
ghost use Rattle.reg_judge.specs.Reported.{IsJudgedReport};
ghost use Rattle.reg_judge.specs.Rulings.{AreRuled};
ghost use Rattle.reg_judge.specs.Standing.{IsStood};

/// A history has a point order exactly where the part of each register has one. So registers may be judged one by one.
pub fn point_order_is_local()
    ensures { (n registers : ℕ) (h : List Entry) → IsHistory n registers h
        → HasPointOrder registers h ↔ ((r : ℕ) → r < registers → HasPointOrder registers (part_at r h)) }
{}

/// A history with a point order has one for each of its first parts. So where the entries up to an answer have none, no
/// more entries have one.
pub fn first_parts_have_orders()
    ensures { (n registers count : ℕ) (h : List Entry) → IsHistory n registers h → HasPointOrder registers h
        → HasPointOrder registers (take count h) }
{}

/// Two histories of one register each, alike but for names and the register, have point orders alike.
pub fn names_change_no_order()
    ensures { (registers also this that : ℕ) (one other : List Entry) → this < registers → that < also
        → AreAlike this that one other → HasPointOrder registers one ↔ HasPointOrder also other }
{}

/// A history of rows has a point order exactly where what is found out of each key is that it is linearizable.
pub fn keys_agree_with_the_whole()
    ensures { (naming : AnyNaming) (processes keys : ℕ) (rows : List AnyRow) (entries : List AnyEntry)
        (rulings : List AnyRuling)
        → IsStood naming processes keys rows entries → AreRuled processes keys rows rulings
        → HasPointOrder keys entries
        ↔ ((key : ℕ) (ruling : AnyRuling) → slice_get rulings key ≡ Some ruling → ruling ≡ Linearizable) }
{}

/// A point order of a report's history is found exactly where what is found out of each register is that it is
/// linearizable.
pub fn registers_agree_with_the_report()
    ensures { (r : Contents) (found : Result (List AnyPoint) ℕ) (rulings : List AnyRuling) (serial : Option AnySerial)
        → IsHistory r.shape.processes r.shape.registers r.entries → IsJudgedReport r found rulings serial
        → (is_ok found ≡ true)
        ↔ ((key : ℕ) (ruling : AnyRuling) → slice_get rulings key ≡ Some ruling → ruling ≡ Linearizable) }
{}
