// Program: runs every case of three lists, the settled examples of the leaves, the oracle's answers and the settled examples of the
// configuration, initialisation, prediction and loss, against the proved crates, and prints for each list how many cases of each
// tag agree. Its file `stdout` says that all do.
#![tactic(auto)]

mod cases;

use case_lists::run_file;
use std::io;

fn main(rt: HostRuntime) -> io::Result<()> {
    run_file(&rt, "settled", "settled.txt", &cases::agrees)?;
    run_file(&rt, "oracle", "oracle.txt", &cases::agrees)?;
    run_file(&rt, "calls", "calls.txt", &cases::agrees)
}
