// Program: runs every case of five lists, the settled examples of training, of images, of the visit map, of training in two
// calls and of NPY files, against the proved crates, and prints for each list how many cases of each tag agree. Its file
// `stdout` says that all do.
#![tactic(auto)]

mod cases;

use case_lists::run_file;
use std::io;

fn main(rt: HostRuntime) -> io::Result<()> {
    run_file(&rt, "training", "training.txt", &cases::agrees)?;
    run_file(&rt, "images", "images.txt", &cases::agrees)?;
    run_file(&rt, "visits", "visits.txt", &cases::agrees)?;
    run_file(&rt, "split", "split.txt", &cases::agrees)?;
    run_file(&rt, "npy", "npy.txt", &cases::agrees)
}
