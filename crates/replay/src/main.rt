// A fixed sample of the original's answers, replayed: `stdin` is a tape of 600 random calls within document 01's domain, `stdout` the key that the original Rust
// printed for it (host/oracle, the build with overflow checks, `--key`). Calls of which the Rust does not tell which number it means were left out.
#![tactic(auto)]

use std::process::ExitCode;

fn main(rt: HostRuntime) -> ExitCode {
    runner::run(rt)
}
