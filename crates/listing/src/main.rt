// Opens the store in the current folder and writes what it holds: the answer, page count, next id, next commit time, mark, each entry by id (the time after a
// C), and the lengths that log and clog are left with. The files are `store.db`, `store.db.wal` and `store.db.clog`; a missing one counts as empty, one that is
// longer than its buffer gives 1. No file is written. A refused opening writes the first line only.
#![tactic(auto)]

use fields::Refusal;
use form::Store;
use opening::Unopened;
use std::io;
use std::rt::Files;
use table::{Entry, Status};
use world::Lens;

// What stands for the length of a file that is longer than its buffer.
const LONGER: usize = 65536;

// A file's length, or its name where it cannot be read.
fn fetch<'a>(rt: &impl Files, name: &'a str, buf: &mut [u8]) -> Result<usize, &'a str> {
    match intake::fetch(rt, name, buf) {
        Ok(len) => Ok(len.unwrap_or(LONGER)),
        Err(_) => Err(name),
    }
}

// The lengths of the three files, or the name of the first that cannot be read.
fn fetch_all(
    rt: &impl Files,
    log: &mut [u8],
    db: &mut [u8],
    clog: &mut [u8],
) -> Result<Lens, &'static str> {
    let log = fetch(rt, "store.db.wal", log);
    let db = fetch(rt, "store.db", db);
    let clog = fetch(rt, "store.db.clog", clog);
    Ok(Lens {
        log: log?,
        db: db?,
        clog: clog?,
    })
}

// ---- what the store holds

fn refusal_of(why: Unopened) -> Refusal {
    match why {
        Unopened::Refused(refusal) => refusal,
        Unopened::Torn(_) => Refusal::Torn,
        Unopened::Unknown(_) => Refusal::UnknownTag,
    }
}

// After an opening no entry is Active.
fn entry(rt: &impl Print, e: Entry) -> io::Result<()> {
    let id = e.id.0;
    match e.status {
        Status::Active => println!(rt; "{id} active"),
        Status::Committed(time) => println!(rt; "{id} C {}", time.0),
        Status::Aborted => println!(rt; "{id} A"),
    }
}

fn entries(
    rt: &impl Print,
    s: Store,
    log: &[u8],
    db: &[u8],
    clog: &[u8],
    frames: &[u8],
) -> io::Result<()> {
    let n = quiet::entry_count(s, log, db, clog, frames).unwrap_or(0);
    for i in 0..n {
        if let Ok(Some(e)) = quiet::entry_at(s, i, log, db, clog, frames) {
            entry(rt, e)?;
        }
    }
    Ok(())
}

fn counters(rt: &impl Print, s: Store) -> io::Result<()> {
    println!(rt; "pages {}", s.pages)?;
    println!(rt; "next {}", s.next.0)?;
    println!(rt; "commit {}", s.time.0)?;
    println!(rt; "frozen {}", s.mark.0)
}

fn report(
    rt: &impl Print,
    lens: Lens,
    log: &mut [u8],
    db: &mut [u8],
    clog: &mut [u8],
    frames: &[u8],
) -> io::Result<()> {
    let s = match opens::open(lens, log, db, clog, frames) {
        Ok(s) => s,
        Err(why) => return println!(rt; "open {}", refusal_of(why).number()),
    };
    println!(rt; "open 0")?;
    counters(rt, s)?;
    entries(rt, s, log, db, clog, frames)?;
    println!(rt; "log {}", s.lens.log)?;
    println!(rt; "clog {}", s.lens.clog)
}

fn main(rt: HostRuntime) -> io::Result<()> {
    let mut log = [0u8; 24576];
    let mut db = [0u8; 32768];
    let mut clog = [0u8; 4096];
    let frames = [0u8; 4096];
    match fetch_all(&rt, &mut log, &mut db, &mut clog) {
        Ok(lens) => report(&rt, lens, &mut log, &mut db, &mut clog, &frames),
        Err(name) => println!(rt; "{name} cannot be read"),
    }
}
