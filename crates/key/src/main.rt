// The key program: reads a call tape from standard input and prints the right answer of each call, as document 01 sets the lines out.
// Where there is no whole key, the reason goes to standard error and the status is 1.
#![tactic(auto)]

use std::process::ExitCode;

fn main(rt: HostRuntime) -> ExitCode {
    runner::run(rt)
}
