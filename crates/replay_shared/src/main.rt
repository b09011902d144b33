//! Performs a script of calls of two callers on one bank, and prints an answer a line.
//! Beside this crate's sources, `stdin` has a script and `stdout` the answers to it; `tools/replay_shared_script.py` writes both, and says how the
//! answers were made.
#![tactic(auto)]

fn main(rt: HostRuntime) -> anyhow::Result<()> {
    replaying::replay(&rt)
}
