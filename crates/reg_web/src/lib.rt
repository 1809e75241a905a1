//! The programs for a page: functions that a host calls over memory that it lends, and that ask the host for nothing.
#![tactic(auto)]

mod judging;
mod layouts;
mod plays;
mod tables;
mod telling;
mod texts;
mod under;

pub use plays::{
    tellwydar_layout, tellwydar_outcome, tellwydar_outcomes, tellwydar_outcomes_all,
    tellwydar_play, tellwydar_play_fair, tellwydar_schedule, tellwydar_schedule_fair,
    tellwydar_short, tellwydar_short_fair,
};
pub use texts::{
    tellwydar_check, tellwydar_data, tellwydar_data_under, tellwydar_draw, tellwydar_draw_large,
    tellwydar_find_points, tellwydar_find_serial, tellwydar_judge, tellwydar_judge_report,
    tellwydar_kind, tellwydar_merge, tellwydar_page, tellwydar_replay, tellwydar_replay_under,
    tellwydar_rest, tellwydar_trace, tellwydar_verify, tellwydar_why,
};
