//! Values that several tests speak of.
use reg_base::Op;

/// A read of the first register.
pub const READ: Op = Op::Read { register: 0 };

/// A write of 5 to it.
pub const WRITE_FIVE: Op = Op::Write {
    register: 0,
    value: 5,
};
