// Inner crate: lists of cases as files, for the programs that run them. A list is read line by line, since a proof about a whole
// file's bytes would be large, and each tag's cases are counted.
#![tactic(auto)]

mod read;
mod tallies;

ghost use Rattle.std.specs.Prelude.{◌≤◌, length};

pub use read::line_at;
use replay::Line;
use std::fs::File;
use std::io;
use std::rt::Files;
pub use tallies::Tallies;

// More than any list has.
const MOST_BYTES: usize = 1_048_576;

// The list of this name, at a path. `agrees` takes a case's tag and words. A list that cannot be opened is missing.
pub fn run_file<F: Fn(u8, &[u64]) -> bool>(
    rt: &(impl Files<File = File> + Print),
    name: &str,
    path: &str,
    agrees: &F,
) -> io::Result<()>
    requires { F.IsAlwaysCallable agrees.now }
{
    match File::open(rt, path) {
        Ok(file) => run_list(rt, name, &file, agrees),
        Err(_) => println!(rt; "{name} missing"),
    }
}

// `at` moves on by a line at a time.
fn run_list<F: Fn(u8, &[u64]) -> bool>(
    rt: &impl Print,
    name: &str,
    file: &File,
    agrees: &F,
) -> io::Result<()>
    requires { F.IsAlwaysCallable agrees.now }
{
    let mut tallies = Tallies::new();
    let mut chunk = [0u8; 4096];
    let mut number = 0;
    let mut at = 0;
    while at < MOST_BYTES {
        let Some(length) = line_at(file, at, &mut chunk)? else {
            return tallies.print(rt, name);
        };
        number += 1;
        run_line(rt, name, number, &chunk[..length], agrees, &mut tallies)?;
        at += length + 1;
    }
    println!(rt; "{name} too long")
}

// A case is counted under its tag.
fn run_line<F: Fn(u8, &[u64]) -> bool>(
    rt: &impl Print,
    name: &str,
    number: usize,
    line: &[u8],
    agrees: &F,
    tallies: &mut Tallies,
) -> io::Result<()>
    requires { F.IsAlwaysCallable agrees.now }
{
    let mut words = [0u64; 512];
    match replay::parse_line(line, &mut words) {
        Line::Words { tag, count } => {
            let met = agrees(tag, &words[..count]);
            tallies.count(tag, met);
            if met {
                Ok(())
            } else {
                println!(rt; "{name} line {number} differs")
            }
        }
        Line::Skipped => Ok(()),
        Line::Malformed => println!(rt; "{name} line {number} malformed"),
    }
}
