// Stored files.
ghost use Rattle.std.specs.Prelude.{◌≤◌, length, MatchResult};

use line_text::write::put_word;
use std::rt::Files;
use std::{fs, str};
use stored_files::read_full;

// Reads a file by its name and ending. As an error, what was read of one that may be longer than the buffer, which is
// nothing where the file is missing.
pub(crate) fn read<'a>(
    rt: &impl Files,
    name: &[u8],
    ending: &[u8],
    buffer: &'a mut [u8],
) -> Result<&'a [u8], &'a [u8]>
    ensures within { MatchResult result (λ held. length held.now ≤ length buffer.old)
        (λ part. length part.now ≤ length buffer.old) }
{
    let mut path = [0u8; 128];
    let mid = put_word(&mut path, 0, name);
    let end = put_word(&mut path, mid, ending);
    let Ok(path) = str::from_utf8(&path[..end]) else {
        return Err(&[]);
    };
    let Ok(mut file) = fs::open(rt, path) else {
        return Err(&[]);
    };
    let n = read_full(&mut file, buffer);
    if n < buffer.len() {
        Ok(&buffer[..n])
    } else {
        Err(buffer)
    }
}
