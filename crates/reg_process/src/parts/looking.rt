//! What a process knows of another one.
ghost use Rattle.std.specs.Prelude.{◌≡◌, ◌<◌, length, IfOk};
ghost use Rattle.reg_process.specs.Process.{peer_at};
ghost use Rattle.reg_process.specs.Known.{known_of};

use super::Core;
use crate::known::Known;
use crate::running::Current;
use reg_base::Delivered;
use std::alloc::{AllocError, Allocator};

impl<A: Allocator + Copy> Core<A> {
    /// What it knows of another process.
    pub(crate) fn known(&self, process: u8) -> Known
        requires peer { process < length self.now.peers }
        requires other { process ≡ self.now.me → ⊥ }
        ensures { result ≡ known_of (peer_at self.now process) }
    {
        let Some(seen) = self.waiting.seen(process) else {
            unreachable!()
        };
        let expected = self.expected(process);
        let next = self.outboxes.next();
        let first = next - self.outboxes.pending(process);
        Known {
            seen,
            expected,
            first,
            next,
        }
    }

    /// The casts that it holds back.
    pub(crate) fn held<B: Allocator + Copy>(
        &self,
        alloc: B,
    ) -> Result<Vec<Delivered, B>, AllocError>
        ensures { IfOk result (λ v. v.items ≡ self.now.held) }
    {
        self.waiting.held(alloc)
    }

    /// The operation that runs.
    pub(crate) fn running(&self) -> Option<Current>
        ensures { result ≡ self.now.running }
    {
        self.running
    }
}
