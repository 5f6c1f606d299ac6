// How many cases of each tag agree, and how many differ.
use std::io;

#[derive(Clone, Copy, Debug, PartialEq, Eq)]
struct Tally {
    agree: u64,
    differ: u64,
}

#[derive(Drop)]
pub struct Tallies {
    by_tag: [Tally; 256],
}

impl Tallies {
    pub fn new() -> Tallies {
        let none = Tally {
            agree: 0,
            differ: 0,
        };
        Tallies {
            by_tag: [none; 256],
        }
    }

    // One more case of this tag. No list has 2^64 lines, so no count wraps.
    pub fn count(&mut self, tag: u8, agrees: bool) {
        let tally = &mut self.by_tag[usize::from(tag)];
        if agrees {
            tally.agree = tally.agree.wrapping_add(1);
        } else {
            tally.differ = tally.differ.wrapping_add(1);
        }
    }

    // A line for each tag that occurs.
    pub fn print(&self, rt: &impl Print, name: &str) -> io::Result<()> {
        for (tag, tally) in (0..=u8::MAX).zip(&self.by_tag) {
            tally.print(rt, name, char::from(tag))?;
        }
        Ok(())
    }
}

impl Tally {
    fn print(&self, rt: &impl Print, name: &str, tag: char) -> io::Result<()> {
        if self.agree == 0 && self.differ == 0 {
            return Ok(());
        }
        println!(rt; "{name} {tag} {} agree {} differ", self.agree, self.differ)
    }
}
