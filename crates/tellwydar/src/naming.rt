//! Registers by their names.
ghost use Rattle.std.specs.Prelude.{◌≡◌, ◌≢◌, length, Err};
ghost use Rattle.reg_base.specs.Shape.{shape_of};
ghost use Rattle.reg_base.specs.declared.shapes.ShapeFault.TheVariants.{NoRegister, TooManyRegisters};

use reg_base::{Names, Shape, ShapeFault};

/// The shape of this number of processes, which share a register for each name. The number of a name (`Names::number`)
/// is its register there.
///
/// # Errors
///
/// `NoProcess` for 0 processes, and `TooManyProcesses` for more than `limits::MOST_PROCESSES`. There is a name, and no
/// more than registers may be, so there is no other fault.
pub fn shape_for(processes: u32, names: &Names) -> Result<Shape, ShapeFault>
    ensures shape { result ≡ shape_of processes (length names.now) }
    ensures some { result ≢ Err NoRegister }
    ensures few { result ≢ Err TooManyRegisters }
{
    Shape::new(processes, names.count() as u32)
}
