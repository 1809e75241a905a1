//! The course of a chapter of a node that a caller holds.
ghost use Rattle.std.specs.Prelude.{◌≡◌, option_map};
ghost use Rattle.reg_node.specs.Courses.{course_at_first, progress_of};
ghost use Rattle.reg_c.specs.NodeCourses.{FollowsIn, NodeEnds, NodeFollows, NodeHasRoom, course_look_of, course_number};
ghost use Rattle.reg_c.specs.NodeCourses.{course_part, course_seen, value_of as value_in};
ghost use Rattle.reg_c.specs.Nodes.{logged_in};

use crate::choosing::of_kept;
use crate::codes::{CLOSED, NO_SHAPE};
use crate::events::code_of_refusal;
use crate::node_parts::flag_of;
use crate::nodes::{HeldNode, KeptNode};
use reg_base::Op;
use reg_base::limits::MOST_REGISTERS;
use reg_node::{Course, Progress};
use reg_process::ProcessFault;
use std::alloc::Global;

/// What the course of a chapter tells.
#[derive(Clone, Copy)]
pub enum CoursePart {
    /// 1 where the chapter is to end.
    Ending,
    /// 1 where so many own casts are on their way that no other one is made.
    FarAhead,
    /// 1 where the values of the chapter before aren't all delivered here, or the write of one goes on.
    Opening,
    /// 1 where nothing more is called, and no operation goes on.
    Quiet,
    /// How many calls are the caller's.
    OwnCalls,
    /// 1 where there is a value of the chapter before that is written next.
    Next,
    /// The register of that value.
    NextRegister,
    /// That value.
    NextValue,
}

/// What the number says to look at.
pub fn course_look(what: u32) -> Option<CoursePart>
    ensures { result ≡ course_look_of what }
{
    match what {
        0 => Some(CoursePart::Ending),
        1 => Some(CoursePart::FarAhead),
        2 => Some(CoursePart::Opening),
        3 => Some(CoursePart::Quiet),
        4 => Some(CoursePart::OwnCalls),
        5 => Some(CoursePart::Next),
        6 => Some(CoursePart::NextRegister),
        7 => Some(CoursePart::NextValue),
        _ => None,
    }
}

/// The course of a chapter in such a room, if there is a node.
fn first_course(
    kept: &KeptNode,
    alloc: Global,
    operations: u64,
    entries: u64,
    ahead: u64,
) -> Option<Course>
    ensures { result ≡ option_map (λ _. course_at_first operations entries ahead) (logged_in kept.now) }
{
    of_kept!(kept, KeptNode, _node => Some(Course::new(alloc, operations, entries, ahead)), None)
}

/// Sets the room of the node's chapter.
pub fn set_room(held: &mut HeldNode, operations: u64, entries: u64, ahead: u64) -> u32
    ensures { NodeHasRoom operations entries ahead held.old held.new result }
{
    let alloc = *held.bytes.allocator();
    match first_course(&held.node, alloc, operations, entries, ahead) {
        Some(course) => {
            held.course = Some(course);
            0
        }
        None => CLOSED,
    }
}

fn follow_in(course: &mut Option<Course>, values: &[u64]) -> u32
    ensures { FollowsIn values.now course.old course.new result }
{
    let Some(course) = course else {
        return CLOSED;
    };
    if values.len() > MOST_REGISTERS as usize {
        return NO_SHAPE;
    }
    match course.follow(values) {
        Ok(()) => 0,
        Err(_) => code_of_refusal(ProcessFault::OutOfMemory),
    }
}

/// Notes the values with which the chapter before this one ended.
pub fn follow(held: &mut HeldNode, values: &[u64]) -> u32
    ensures { NodeFollows values.now held.old held.new result }
{
    follow_in(&mut held.course, values)
}

/// Asks for the end of the chapter.
pub fn end(held: &mut HeldNode) -> u32
    ensures { NodeEnds held.old held.new result }
{
    match &mut held.course {
        Some(course) => {
            course.end();
            0
        }
        None => CLOSED,
    }
}

/// The value that an operation writes.
fn value_of(op: Op) -> u64
    ensures { result ≡ value_in op }
{
    match op {
        Op::Read { register: _ } => 0,
        Op::Write { register: _, value } | Op::Swap { register: _, value } => value,
        Op::CompareAndSwap { value, .. } => value,
    }
}

/// A part of a course, where the node has come so far.
fn part(course: &Course, progress: &Progress, part: CoursePart) -> u64
    ensures { result ≡ course_part part course.now progress.now }
{
    match part {
        CoursePart::Ending => flag_of(course.is_ending(progress)),
        CoursePart::FarAhead => flag_of(course.is_far_ahead(progress)),
        CoursePart::Opening => flag_of(course.is_opening(progress)),
        CoursePart::Quiet => flag_of(course.is_quiet(progress)),
        CoursePart::OwnCalls => course.own_calls(progress),
        CoursePart::Next => flag_of(course.next_opening(progress).is_some()),
        CoursePart::NextRegister => match course.next_opening(progress) {
            Some(op) => u64::from(op.register()),
            None => 0,
        },
        CoursePart::NextValue => match course.next_opening(progress) {
            Some(op) => value_of(op),
            None => 0,
        },
    }
}

/// How far the node that is held has come.
fn progress_in(kept: &KeptNode, is_running: bool) -> Option<Progress>
    ensures { result ≡ option_map (λ l. progress_of l is_running) (logged_in kept.now) }
{
    of_kept!(kept, KeptNode, node => Some(Progress::of(node, is_running)), None)
}

fn part_in(course: &Option<Course>, progress: Option<Progress>, of: CoursePart) -> u64
    ensures { result ≡ course_seen of course.now progress }
{
    let Some(course) = course else {
        return 0;
    };
    match progress {
        Some(progress) => part(course, &progress, of),
        None => 0,
    }
}

/// One number of the course of the node's chapter, as the number `what` says; `running` isn't 0 where an operation runs
/// or its reply isn't handed out.
pub fn course(held: &mut HeldNode, what: u32, running: u32) -> u64
    ensures same { held.new ≡ held.old }
    ensures value { result ≡ course_number held.old what running }
{
    match course_look(what) {
        Some(of) => part_in(&held.course, progress_in(&held.node, running != 0), of),
        None => 0,
    }
}
