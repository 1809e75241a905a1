//! The library for programs in other languages: the functions that C can call, and the functions over values that they
//! call. There are numbers for events, replies, faults and verdicts, histories as rows, commands into buffers, and a
//! world, a process or a node that a caller holds by a pointer.
#![tactic(auto)]

mod beginning;
mod chapter_handles;
mod choosing;
mod codes;
mod course_handles;
mod events;
pub mod holding;
mod judging;
mod log_heads;
mod log_merges;
mod looking;
mod messages;
pub mod node_chapters;
mod node_codes;
pub mod node_courses;
mod node_handles;
pub mod node_parts;
pub mod node_peers;
pub mod nodes;
pub mod opening;
mod parts;
mod process_handles;
pub mod processes;
mod reading;
mod rooms;
mod rows;
mod texts;
mod unboxed;
mod verdicts;
mod worlds;

pub use beginning::{tellwydar_node_begin, tellwydar_node_is_headless};
pub use chapter_handles::{
    tellwydar_node_hear_state, tellwydar_node_is_over, tellwydar_node_tell_state,
};
pub use course_handles::{
    tellwydar_node_course, tellwydar_node_end, tellwydar_node_follow, tellwydar_node_set_room,
};
pub use judging::{
    tellwydar_check_points, tellwydar_check_points_expecting, tellwydar_check_serial,
    tellwydar_check_serial_expecting,
};
pub use log_heads::{tellwydar_log_head, tellwydar_log_part};
pub use log_merges::{MergedRow, tellwydar_merge_logs};
pub use messages::{
    GreetingRow, HeardRow, MetRow, tellwydar_message_greet, tellwydar_message_greeting,
    tellwydar_message_met, tellwydar_message_start,
};
pub use node_handles::{
    tellwydar_node_bytes, tellwydar_node_call, tellwydar_node_came, tellwydar_node_close,
    tellwydar_node_compare_and_swap, tellwydar_node_frames, tellwydar_node_hand_out,
    tellwydar_node_hear, tellwydar_node_known, tellwydar_node_look, tellwydar_node_mark_durable,
    tellwydar_node_new, tellwydar_node_open, tellwydar_node_take, tellwydar_node_tick,
    tellwydar_node_watch,
};
pub use process_handles::{
    tellwydar_process_call, tellwydar_process_close, tellwydar_process_compare_and_swap,
    tellwydar_process_frames, tellwydar_process_known, tellwydar_process_look,
    tellwydar_process_new, tellwydar_process_take, tellwydar_process_tick,
};
pub use rooms::{RoomRow, tellwydar_room};
pub use texts::{
    tellwydar_check, tellwydar_judge, tellwydar_judge_from, tellwydar_merge, tellwydar_play,
    tellwydar_play_fair, tellwydar_replay, tellwydar_story, tellwydar_verify,
};
pub use worlds::{
    tellwydar_world_arrange, tellwydar_world_close, tellwydar_world_compare_and_swap,
    tellwydar_world_look, tellwydar_world_new, tellwydar_world_step,
};
