//! What no outcome tells though each of its values stands in some outcome, and the text of all outcomes: by hand.
use crate::interleavings::{READ_X, READ_Y, WRITE_X, WRITE_Y, outcomes_of};
use reg_base::Op;
use reg_outcomes::{AllOutcomes, nevers_of, write_all};
use std::alloc::Global;

/// Writes the text of all outcomes of scripts with this number of operations. Tells whether it is written.
fn writes(bytes: &mut Vec<u8>, alloc: Global, all: &AllOutcomes, operations: u64) -> bool {
    match nevers_of(alloc, all.list.as_slice()) {
        Ok(nevers) => write_all(bytes, operations, all, &nevers).is_ok(),
        Err(_) => false,
    }
}

/// The text of all outcomes of two scripts with this number of operations. Empty where there is no memory for it.
fn text_of(alloc: Global, first: &[Op], second: &[Op], operations: u64) -> String {
    let mut bytes = Vec::new(alloc);
    let written = match outcomes_of(alloc, &[first, second]) {
        Ok(all) => writes(&mut bytes, alloc, &all, operations),
        Err(_) => false,
    };
    match String::from_utf8(bytes) {
        Ok(text) if written => text,
        _ => String::new(alloc),
    }
}

/// Whether this is the text of store buffering.
fn is_store_buffering(text: &str) -> bool {
    let begun = "operations 4
stages 13
outcomes 3
p0 #1 value 0  p1 #1 value 1  turns 0 0 1 1
p0 #1 value 1  p1 #1 value 0  turns 1 1 0 0
p0 #1 value 1  p1 #1 value 1  turns ";
    text.starts_with(begun)
        && text.ends_with("\nnever 1\np0 #1 value 0  p1 #1 value 0\n")
        && text.lines().count() == 8
}

// In one order of the four operations the first read answers 0, in one the second, in none both, and in four none.
#[test]
fn store_buffering(rt: HostRuntime) {
    let text = text_of(rt.alloc(), &[WRITE_X, READ_Y], &[WRITE_Y, READ_X], 4);
    assert!(rt; is_store_buffering(text.as_str()));
}

/// Whether the text of all outcomes of two scripts ends so.
fn ends_so(alloc: Global, first: &[Op], second: &[Op], operations: u64, end: &str) -> bool {
    let text = text_of(alloc, first, second, operations);
    text.ends_with(end)
}

// The flag, and not the message.
#[test]
fn message_passing(rt: HostRuntime) {
    let end = "\nnever 1\np1 #0 value 1  p1 #1 value 0\n";
    assert!(rt; ends_so(rt.alloc(), &[WRITE_X, WRITE_Y], &[READ_Y, READ_X], 4, end));
}

/// Whether this is the number of combinations that no outcome has. None where they are too many to list.
fn are_so_many(alloc: Global, all: &AllOutcomes, count: Option<usize>) -> bool {
    match nevers_of(alloc, all.list.as_slice()) {
        Ok(Some(nevers)) => count == Some(nevers.len()),
        Ok(None) => count.is_none(),
        Err(_) => false,
    }
}

/// Whether this is the number of combinations that no outcome has, where a register is written once and read so: its
/// values rise.
fn has_count(alloc: Global, reads: &[Op], count: Option<usize>) -> bool {
    match outcomes_of(alloc, &[&[WRITE_X], reads]) {
        Ok(all) => {
            all.list.len() == reads.len().saturating_add(1) && are_so_many(alloc, &all, count)
        }
        Err(_) => false,
    }
}

// Of 2^n combinations n + 1 rise.
#[test]
fn many(rt: HostRuntime) {
    assert!(rt; has_count(rt.alloc(), &[READ_X], Some(0)));
    assert!(rt; has_count(rt.alloc(), &[READ_X; 8], Some(247)));
    assert!(rt; has_count(rt.alloc(), &[READ_X; 9], None));
}

#[test]
fn nothing_to_tell(rt: HostRuntime) {
    let text = text_of(rt.alloc(), &[], &[], 0);
    assert!(rt; text.as_str() == "operations 0\nstages 1\noutcomes 1\nturns\nnever 0\n");
}

#[test]
fn too_many_to_list(rt: HostRuntime) {
    assert!(rt;
        ends_so(
            rt.alloc(),
            &[WRITE_X],
            &[READ_X; 9],
            10,
            "\nnever over 256\n"
        )
    );
}
