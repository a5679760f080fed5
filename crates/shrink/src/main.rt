// Moves the clog of the store in the current folder to its second form, or back. Each argument is a move, made in their order; without one it is `second`:
//   second   `store.db.clog`, under the mark of page 0 of `store.db`, is written to `store.db.clog.second`
//   first    `store.db.clog.second` is written to `store.db.clog.first`
// It never writes a file that is there already, and none under the name that a store opens: an opening that was given the second form would reset it, and the
// statuses would be gone. A move writes its number (0, or why it is refused), and where it is accepted the mark, the base, both lengths and the file's name. A
// missing file counts as empty; one that is longer than its buffer of 65,536 bytes gives 1.
#![tactic(auto)]

use fields::TransactionId;
use std::env::{Env, FillError};
use std::fs::{File, OpenFile};
use std::io;
use std::io::{ErrorKind, Write};
use std::rt::Files;

const ROOM: usize = 65536;

// What stands for the length of a file that is longer than its buffer.
const LONGER: usize = 131072;

// Where the base stands in a clog's second form.
const BASE_AT: usize = 5;

// ---- files

// The first page of the database, or what there is of it. A missing file is an empty one; any other that cannot be opened is an error.
fn fetch_page(rt: &impl Files, page: &mut [u8]) -> io::Result<usize> {
    match File::open(rt, "store.db") {
        Ok(mut file) => Ok(intake::read_full(&mut file, page)),
        Err(e) if e.kind() == ErrorKind::NotFound => Ok(0),
        Err(e) => Err(e),
    }
}

// The close of a file does not tell an error, so that the bytes are brought to the disk before.
fn write_through(file: &mut (impl Write + OpenFile), bytes: &[u8]) -> io::Result<()> {
    file.write_all(bytes)?;
    file.sync_all()
}

// A new file of these bytes; one that is there already stays as it is.
fn keep(rt: &(impl Files + Print), name: &str, bytes: &[u8]) -> io::Result<()> {
    let Ok(mut file) = File::create_new(rt, name) else {
        return println!(rt; "{name} is there already, or cannot be made");
    };
    if write_through(&mut file, bytes).is_err() {
        return println!(rt; "{name} cannot be written");
    }
    println!(rt; "{name} is written")
}

// ---- the moves

// The mark of page 0. Where no meta page stands it is 0, as for an opening.
fn mark_of(page: &[u8], len: usize) -> TransactionId {
    match meta::read_meta(page, len) {
        Ok(Some(m)) => m.mark,
        Ok(None) | Err(_) => TransactionId(0),
    }
}

fn move_second(
    rt: &(impl Files + Print),
    from: &mut [u8; ROOM],
    to: &mut [u8; ROOM],
) -> io::Result<()> {
    let mut page = [0u8; 4096];
    let Ok(page_len) = fetch_page(rt, &mut page) else {
        return println!(rt; "store.db cannot be read");
    };
    let Ok(read) = intake::fetch(rt, "store.db.clog", from) else {
        return println!(rt; "store.db.clog cannot be read");
    };
    let old_len = read.unwrap_or(LONGER);
    let mark = mark_of(&page[..], page_len);
    match shrunk::to_second(&from[..], old_len, mark, to) {
        Ok(n) => {
            println!(rt; "second 0")?;
            println!(rt; "mark {}", mark.0)?;
            println!(rt; "base {}", fields::get_big_u64(&to[..], BASE_AT))?;
            println!(rt; "old length {old_len}")?;
            println!(rt; "new length {n}")?;
            keep(rt, "store.db.clog.second", &to[..n.min(ROOM)])
        }
        Err(refusal) => println!(rt; "second {}", refusal.number()),
    }
}

fn move_first(
    rt: &(impl Files + Print),
    from: &mut [u8; ROOM],
    to: &mut [u8; ROOM],
) -> io::Result<()> {
    let Ok(read) = intake::fetch(rt, "store.db.clog.second", from) else {
        return println!(rt; "store.db.clog.second cannot be read");
    };
    let new_len = read.unwrap_or(LONGER);
    match shrunk::to_first(&from[..], new_len, to) {
        Ok(n) => {
            println!(rt; "first 0")?;
            println!(rt; "base {}", fields::get_big_u64(&from[..], BASE_AT))?;
            println!(rt; "new length {new_len}")?;
            println!(rt; "old length {n}")?;
            keep(rt, "store.db.clog.first", &to[..n.min(ROOM)])
        }
        Err(refusal) => println!(rt; "first {}", refusal.number()),
    }
}

fn one(
    rt: &(impl Files + Print),
    text: &[u8],
    from: &mut [u8; ROOM],
    to: &mut [u8; ROOM],
) -> io::Result<()> {
    if text == b"second".as_slice() {
        return move_second(rt, from, to);
    }
    if text == b"first".as_slice() {
        return move_first(rt, from, to);
    }
    rt.write_all(text)?;
    println!(rt; " is no move: second, or first")
}

// Whether there is such an argument; its move is made. One that is longer than its buffer is an empty one, and no move.
fn argument(
    rt: &(impl Env + Files + Print),
    i: usize,
    from: &mut [u8; ROOM],
    to: &mut [u8; ROOM],
) -> io::Result<bool> {
    let mut text = [0u8; 16];
    match rt.arg(i, &mut text) {
        Ok(n) => one(rt, &text[..n], from, to)?,
        Err(FillError::TooLong) => one(rt, b"", from, to)?,
        Err(FillError::NotPresent) => return Ok(false),
    }
    Ok(true)
}

fn main(rt: HostRuntime) -> io::Result<()> {
    let mut from = [0u8; ROOM];
    let mut to = [0u8; ROOM];
    if !argument(&rt, 1, &mut from, &mut to)? {
        return move_second(&rt, &mut from, &mut to);
    }
    for i in 2..usize::MAX {
        if !argument(&rt, i, &mut from, &mut to)? {
            break;
        }
    }
    Ok(())
}
