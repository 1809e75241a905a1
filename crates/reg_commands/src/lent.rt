//! What a command tells of bytes, and the same over memory that a caller lends.
ghost use Rattle.std.specs.Prelude.{◌≡◌, length};
ghost use Rattle.reg_commands.specs.Lent.{IsTold, filled};

use crate::shell::{TextCommand, run_command};
use std::alloc::Allocator;

/// How many bytes an answer has, and how many the line of a fault: also where less room was lent.
#[repr(C)]
#[derive(Clone, Copy)]
pub struct Lengths {
    pub output: usize,
    pub errors: usize,
}

/// What a command answers: its status, its answer, and the line of a fault.
#[derive(Drop)]
pub struct Response<A: Allocator + Copy> {
    pub status: u8,
    pub answer: Vec<u8, A>,
    pub line: Vec<u8, A>,
}

/// Runs a command over bytes.
pub fn tell<C: TextCommand, A: Allocator + Copy>(command: C, alloc: A, bytes: &[u8]) -> Response<A>
    requires { C.IsReady command }
    ensures { IsTold (C.MayDeny command) C.Fault.of_fault C.Fault.line (C.IsBlamed command) (C.IsAnswer command)
        bytes.now result.status result.answer.items result.line.items }
{
    let mut reader = bytes;
    let mut answer = Vec::new(alloc);
    let mut line = Vec::new(alloc);
    let status = run_command(command, alloc, &mut reader, &mut answer, &mut line);
    Response {
        status,
        answer,
        line,
    }
}

/// Puts as many of the bytes into the room as it takes.
pub fn fill(room: &mut [u8], bytes: &[u8])
    ensures { room.new ≡ filled bytes.now room.old }
{
    let count = bytes.len().min(room.len());
    room[..count].copy_from_slice(&bytes[..count]);
}

impl<A: Allocator + Copy> Response<A> {
    /// Puts the answer and the line into the rooms, as far as they take them, and gives the status.
    pub fn put(&self, output: &mut [u8], errors: &mut [u8], lengths: &mut Lengths) -> u8
        ensures status { result ≡ self.now.status }
        ensures output { output.new ≡ filled self.now.answer.items output.old }
        ensures errors { errors.new ≡ filled self.now.line.items errors.old }
        ensures many { lengths.new.output ≡ length self.now.answer.items }
        ensures few { lengths.new.errors ≡ length self.now.line.items }
    {
        fill(output, &self.answer);
        fill(errors, &self.line);
        *lengths = Lengths {
            output: self.answer.len(),
            errors: self.line.len(),
        };
        self.status
    }
}
