//! The front ends by name.
ghost use Rattle.std.specs.Prelude.{◌≡◌, ◌↔◌, Some};
ghost use Rattle.reg_front.specs.declared.named.Front.{Front};
ghost use Rattle.reg_front.specs.Table.{front_name};

/// The front ends that texts can name.
#[derive(Clone, Copy, Debug, PartialEq, Eq)]
pub enum Front {
    /// `linear`: every operation is cast, and runs until its delivery.
    Linear,
    /// `local-read`: what may change a register is cast, and runs until its delivery; reads are answered from the own
    /// copy.
    LocalRead,
    /// `local-write`: what may change a register is cast, and writes are answered at once; reads are answered from the
    /// own copy.
    LocalWrite,
}

impl Front {
    /// The front end of this name, None where no front end has it.
    pub fn from_name(name: &str) -> Option<Front>
        ensures { (f : Front) → (result ≡ Some f) ↔ (front_name f ≡ name.now) }
    {
        match name {
            "linear" => Some(Front::Linear),
            "local-read" => Some(Front::LocalRead),
            "local-write" => Some(Front::LocalWrite),
            _ => None,
        }
    }

    /// The front end's name in texts.
    pub fn name(self) -> &'static str
        ensures { result.now ≡ front_name self }
    {
        match self {
            Front::Linear => "linear",
            Front::LocalRead => "local-read",
            Front::LocalWrite => "local-write",
        }
    }
}
