//! Operations by short names.
ghost use Rattle.std.specs.Prelude.{◌≡◌};
ghost use Rattle.reg_base.specs.declared.memory.Op.{Op};

use reg_base::Op;

/// A read of the register.
pub fn read(register: u16) -> Op
    ensures { result ≡ Op.Read register }
{
    Op::Read { register }
}

/// A write of this value to the register.
pub fn write(register: u16, value: u64) -> Op
    ensures { result ≡ Op.Write register value }
{
    Op::Write { register, value }
}

/// A swap of this value for the one that the register has.
pub fn swap(register: u16, value: u64) -> Op
    ensures { result ≡ Op.Swap register value }
{
    Op::Swap { register, value }
}
