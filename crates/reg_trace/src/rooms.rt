//! The room beside the processes' lines of a drawing: texts stand there one after another. Clauses say only that none
//! stands left of where it is put.
ghost use Rattle.std.specs.Prelude.{◌≡◌, ◌≤◌};

/// The free room to the right of a text.
pub const GAP: u32 = 14;

/// Up to where the room above and below each process's line is filled, and the whole drawing.
#[derive(Drop)]
pub struct Filled {
    above: [u32; 256],
    below: [u32; 256],
    right: u32,
}

impl Filled {
    /// The room where nothing stands yet, of a drawing that is at least `least` wide.
    pub fn new(least: u32) -> Filled {
        Filled {
            above: [0; 256],
            below: [0; 256],
            right: least,
        }
    }

    /// Puts a text above the line of a process, from x or where that line is free: tells from where.
    pub fn put_above(&mut self, process: u8, x: u32, wide: u32) -> u32
        ensures { x ≤ result }
    {
        let free = &mut self.above[usize::from(process)];
        let x = x.max(*free);
        *free = x.saturating_add(wide).saturating_add(GAP);
        self.right = self.right.max(*free);
        x
    }

    /// Puts a text below the line of a process, from x or where that line is free, with a little more room after it:
    /// tells from where.
    pub fn put_below(&mut self, process: u8, x: u32, wide: u32) -> u32
        ensures { x ≤ result }
    {
        let free = &mut self.below[usize::from(process)];
        let x = x.max(*free);
        *free = x.saturating_add(wide).saturating_add(GAP).saturating_add(8);
        self.right = self.right.max(*free);
        x
    }

    /// Makes the drawing reach up to x.
    pub fn reach(&mut self, x: u32) {
        self.right = self.right.max(x);
    }

    /// How far what was put reaches.
    pub fn right(&self) -> u32
        ensures { result ≡ self.now.right }
    {
        self.right
    }
}
