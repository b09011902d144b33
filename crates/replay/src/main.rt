//! Performs a script of calls on a bank, and prints an answer a line: for comparison with the original map, and with a model of the books.
//! Beside this crate's sources, `stdin` has a script and `stdout` its answers: first the original's, to the lines of `tools/replay_script.py`, which
//! says how they were made; then the model's, to those of `tools/decade_script.py`, which ask by decades.
#![tactic(auto)]

fn main(rt: HostRuntime) -> anyhow::Result<()> {
    replaying::replay(&rt)
}
