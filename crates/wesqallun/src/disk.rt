// The bytes of a named file.
ghost use Rattle.std.specs.Prelude.{◌≤◌, length, IfOk};

use std::io::Read;
use std::rt::Files;
use std::{fs, io};

/// Reads the file of a name into `buffer`, as far as it goes, and answers what was read: nothing where the name is not
/// UTF-8 or the file cannot be opened or read. That these are the file's bytes is only tested.
pub fn read_file<'a, R: Files>(rt: &R, name: &[u8], buffer: &'a mut [u8]) -> &'a [u8]
    ensures { length result.now ≤ length buffer.old }
{
    let Ok(path) = std::str::from_utf8(name) else {
        return &[];
    };
    let Ok(mut file) = fs::open(rt, path) else {
        return &[];
    };
    let count = fill(&mut file, buffer).unwrap_or(0);
    &buffer[..count]
}

// Reads until `bytes` is full or the input ends. A loop of our own, since `read_to_end` makes its vector larger where it likes, and no
// clause of it bounds what a `take` lets through; these bytes were made once, and stay as many.
fn fill<F: Read>(input: &mut F, bytes: &mut [u8]) -> io::Result<usize>
    ensures { IfOk result (λ n. n ≤ length bytes.new) }
{
    let mut at = 0;
    while at < bytes.len() {
        let count = input.read(&mut bytes[at..])?;
        if count == 0 {
            break;
        }
        at += count;
    }
    Ok(at)
}
