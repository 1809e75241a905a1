//! Laws of what is told of runs, for every list of events and every front end, and of the data. Each is a function that
//! does nothing: its contract is the law.
ghost use Rattle.std.specs.Prelude.{ℕ, ◌≡◌, List, None};
ghost use Rattle.reg_base.specs.Shape.{Extent};
ghost use Rattle.reg_base.specs.declared.memory.Op.{Op};
ghost use Rattle.reg_front.specs.declared.starts.Start.{Start};
ghost use Rattle.reg_process.specs.declared.events.Event.{Event};
ghost use Rattle.reg_world.specs.World.{whole};
ghost use Rattle.reg_trace.specs.Figures.{HaveArrows, arrows_of};
ghost use Rattle.reg_trace.specs.Moments.{moments_of};
ghost use Rattle.reg_base.specs.Names.{names_fault};
ghost use Rattle.reg_trace.specs.Data.{Data, data_text};
ghost use Rattle.reg_trace.specs.Plain.{IsPlainText};

/// Where all events of a run are accepted, each take has an arrow, from an earlier event that put its frame.
pub fn takes_have_arrows()
    ensures { (start : Op → ℕ → Start) (shape : Extent) (events : List Event)
        → (whole start shape.processes shape.registers events).accepted ≡ events
        → HaveArrows events (arrows_of (moments_of start shape events)) }
{}

/// Where the names are names, the data is line feeds and printable characters of ASCII other than `<`, `>` and `&`,
/// whatever the comments of its schedule say. So it can't end the element of a page that holds it. And each backslash
/// in it begins an escape of four digits.
pub fn data_is_plain()
    ensures { (d : Data) → names_fault d.names ≡ None → IsPlainText (data_text d) }
{}
