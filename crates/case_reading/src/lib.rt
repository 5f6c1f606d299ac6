// Inner crate: how a case is read. It is a slice of words; f32 numbers are words of 32 bits.
#![tactic(auto)]

ghost use Rattle.std.specs.Prelude.{◌≤◌, length, IfSome};

use refusals::Refusal;
use replay::{float_of, same_bits};
use spline::Grid;

// What is left of a case's words. Each method takes words off the front, and answers None where they are missing or other than
// they must be: the case then does not agree. A copy keeps its place.
#[derive(Clone, Copy, Debug)]
pub struct Case<'a> {
    rest: &'a [u64],
}

// K w0 .. w(K-1) g lo hi
#[derive(Clone, Copy)]
pub struct Setup<'b> {
    pub widths: &'b [usize],
    pub grid: Grid,
}

impl<'a> Case<'a> {
    pub fn new(words: &'a [u64]) -> Case<'a> {
        Case { rest: words }
    }

    pub fn word(&mut self) -> Option<u64> {
        let (word, rest) = self.rest.split_first()?;
        self.rest = rest;
        Some(*word)
    }

    pub fn size(&mut self) -> Option<usize> {
        Some(self.word()? as usize)
    }

    pub fn float(&mut self) -> Option<f32> {
        Some(float_of(self.word()?))
    }

    // The front of a buffer, as long as the word here says. The buffer must have room.
    pub fn part<'b, T>(&mut self, buffer: &'b mut [T]) -> Option<&'b mut [T]>
        ensures { IfSome result (λ part. length part.now ≤ length buffer.old) }
    {
        let count = self.size()?;
        buffer.get_mut(..count)
    }

    // A list: how many words follow, and they, each as what `read` makes of it.
    fn list<'b, T: Copy, F: Fn(u64) -> Option<T>>(
        &mut self,
        buffer: &'b mut [T],
        read: F,
    ) -> Option<&'b mut [T]>
        requires { F.IsAlwaysCallable read }
        ensures { IfSome result (λ part. length part.now ≤ length buffer.old) }
    {
        let part = self.part(buffer)?;
        for x in part.iter_mut() {
            *x = read(self.word()?)?;
        }
        Some(part)
    }

    // N x0 .. x(N-1)
    pub fn floats<'b>(&mut self, buffer: &'b mut [f32]) -> Option<&'b mut [f32]>
        ensures { IfSome result (λ part. length part.now ≤ length buffer.old) }
    {
        self.list(buffer, |word| Some(float_of(word)))
    }

    // N b0 .. b(N-1)
    pub fn bytes<'b>(&mut self, buffer: &'b mut [u8]) -> Option<&'b mut [u8]>
        ensures { IfSome result (λ part. length part.now ≤ length buffer.old) }
    {
        self.list(buffer, |word| u8::try_from(word).ok())
    }

    pub fn setup<'b>(&mut self, widths: &'b mut [usize]) -> Option<Setup<'b>>
        ensures { IfSome result (λ setup. length setup.widths.now ≤ length widths.old) }
    {
        let widths = self.list(widths, |word| Some(word as usize))?;
        let grid = Grid {
            intervals: self.size()?,
            lo: self.float()?,
            hi: self.float()?,
        };
        Some(Setup { widths, grid })
    }

    pub fn meet(&mut self, number: u64) -> Option<()> {
        (self.word()? == number).then_some(())
    }

    // The number of the refusal and what it carries; both are 0 where the call is accepted.
    pub fn meet_outcome<T>(&mut self, outcome: &Result<T, Refusal>) -> Option<()> {
        let refusal = match outcome {
            Ok(_) => Refusal::new(0),
            Err(refusal) => *refusal,
        };
        self.meet(u64::from(refusal.number))?;
        self.meet(refusal.carried as u64)
    }

    pub fn meet_floats(&mut self, found: &[f32]) -> Option<()> {
        for x in found {
            let word = self.word()?;
            if !same_bits(*x, word) {
                return None;
            }
        }
        Some(())
    }

    pub fn meet_bytes(&mut self, found: &[u8]) -> Option<()> {
        for byte in found {
            self.meet(u64::from(*byte))?;
        }
        Some(())
    }

    pub fn meet_sizes(&mut self, found: &[usize]) -> Option<()> {
        for size in found {
            self.meet(*size as u64)?;
        }
        Some(())
    }

    // Where the whole case was met.
    pub fn end(&self) -> Option<()> {
        self.rest.is_empty().then_some(())
    }
}
