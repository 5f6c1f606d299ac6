// A list's lines.
ghost use Rattle.std.specs.Prelude.{◌≤◌, IfOk, length};
ghost use Rattle.std.specs.Option.{IfSome};

use std::fs::File;
use std::io;
use std::os::unix::fs::FileExt;

// How long the line is that begins at a place of a file, without its LF; the line is then at the front of the chunk. None at the
// end of the file, and an error where the read fails. Of a line that is longer than the chunk the rest is found as a line of its
// own, which is none of a case's.
pub fn line_at(file: &File, at: usize, chunk: &mut [u8]) -> io::Result<Option<usize>>
    ensures { IfOk result (λ found. IfSome found (λ line. line ≤ length chunk.new)) }
{
    let count = file.read_at(chunk, at as u64)?;
    if count == 0 {
        return Ok(None);
    }
    Ok(Some(replay::line_end(&chunk[..count], 0)))
}
