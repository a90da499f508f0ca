// Judges the packet at the front of standard input and prints one line. Where a read of standard input fails, or the line cannot be written, the status is 2
// and standard error says so; in the first case there is no line.

#![tactic(auto)]

use std::process::ExitCode;

fn main(rt: HostRuntime) -> ExitCode {
    standard_input::run_with(
        &mut rt.stdin(),
        &mut rt.stdout(),
        &rt,
        "judge_packet",
        |packet| judge_report::of_packet(packet),
    )
}
