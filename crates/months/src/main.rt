// The batch program once more, for a run on standard input and files: CI runs a program on one input.
#![tactic(auto)]

use runner::run;

fn main(rt: HostRuntime) -> anyhow::Result<()> {
    run(&rt)
}
