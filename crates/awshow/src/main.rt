//! The program over the standard streams.
#![tactic(auto)]

use std::process::ExitCode;

fn main(rt: HostRuntime) -> ExitCode {
    reg_cli::exit_code(reg_show_cli::run_program(&rt, &mut rt.stderr()))
}
