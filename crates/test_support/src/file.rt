// A file's bytes.
ghost use Rattle.std.specs.Prelude.{◌≤◌, length, IfOk};

use crate::say;
use std::fs::File;
use std::io::Read;
use std::{fs, io};

// Opens a file; one that cannot be opened is said.
pub fn open(rt: &HostRuntime, path: &[u8]) -> io::Result<Option<File>> {
    if let Ok(name) = str::from_utf8(path) {
        if let Ok(file) = fs::open(rt, name) {
            return Ok(Some(file));
        }
    }
    say::note(rt, path, b"cannot be opened")?;
    Ok(None)
}

// Reads an open file into the front of a list, as far as it fits, closes it, and answers how many bytes.
pub fn load(mut file: File, bytes: &mut [u8]) -> io::Result<usize>
    ensures { IfOk result (λ n. n ≤ length bytes.new) }
{
    let mut n = 0;
    while n < bytes.len() {
        let more = file.read(&mut bytes[n..])?;
        if more == 0 {
            break;
        }
        n += more;
    }
    Ok(n)
}
