// Closes batches one after the other on one ledger, and prints the sheet of each, or its sentences.
#![tactic(auto)]

use runner::run;

fn main(rt: HostRuntime) -> anyhow::Result<()> {
    run(&rt)
}
