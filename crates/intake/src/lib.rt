// Files, read into buffers of a fixed size.
#![tactic(auto)]

ghost use Rattle.std.specs.Prelude.{◌≡◌, ◌≤◌, length, take, IfOk, IfSome};
ghost use Rattle.std.specs.Io.KnownBytes.{Consumes};

use std::fs::File;
use std::io;
use std::io::{ErrorKind, Read};
use std::rt::Files;

// Reads until the buffer is full, the file ends or a read fails, and gives how many bytes are at the buffer's start: the next ones of the file.
pub fn read_full<R: Read>(file: &mut R, buf: &mut [u8]) -> usize
    ensures bound { result ≤ length buf.new }
    ensures bytes { Consumes (R.remaining file.old) (R.remaining file.new) (take result buf.new) }
{
    let mut done = 0;
    // No `for`: each turn goes on by what it has read.
    while done < buf.len() {
        match file.read(&mut buf[done..]) {
            Ok(0) | Err(_) => break,
            Ok(n) => done += n,
        }
    }
    done
}

// All of a file, and how many bytes that is; None where it goes on past the buffer's end. One byte more is asked for: where a file cannot be read that shows at last.
pub fn read_whole<R: Read>(file: &mut R, buf: &mut [u8]) -> io::Result<Option<usize>>
    ensures bound { IfOk result (λ whole. IfSome whole (λ n. n ≤ length buf.new)) }
    ensures bytes { IfSome (R.remaining file.old) (λ xs. IfOk result (λ whole. IfSome whole (λ n. take n buf.new ≡ xs))) }
{
    let done = read_full(file, buf);
    let mut more = [0u8; 1];
    match file.read(&mut more) {
        Ok(0) => Ok(Some(done)),
        Ok(_) => Ok(None),
        Err(e) => Err(e),
    }
}

// The same of the file of this name. A missing file is an empty one; any other that cannot be opened is an error.
pub fn fetch(rt: &impl Files, name: &str, buf: &mut [u8]) -> io::Result<Option<usize>>
    ensures { IfOk result (λ whole. IfSome whole (λ n. n ≤ length buf.new)) }
{
    match File::open(rt, name) {
        Ok(mut file) => read_whole(&mut file, buf),
        Err(e) if e.kind() == ErrorKind::NotFound => Ok(Some(0)),
        Err(e) => Err(e),
    }
}

// What the file of this name begins with, as far as the buffer goes. One that is missing or cannot be opened has nothing.
pub fn fetch_start(rt: &impl Files, name: &str, buf: &mut [u8]) -> usize
    ensures { result ≤ length buf.new }
{
    match File::open(rt, name) {
        Ok(mut file) => read_full(&mut file, buf),
        Err(_) => 0,
    }
}
