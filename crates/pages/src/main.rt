// Writes the clog of the store in the current folder out as status pages for PostgreSQL's tools, to the file `store.db.xact`, under the mark that page 0 of
// `store.db` holds (0 where there is no meta page). It tells the answer, the mark, each id at or above it that is committed (C) or aborted (A) when the file is
// read again, and the file's length. `store.db` and `store.db.clog` are read; a missing one counts as empty, one that is longer than its buffer gives 1. A refusal
// writes the first line only, and no file. The log is not looked at: what an opening would bring from it into the clog is not in the pages.
#![tactic(auto)]

use fields::{Refusal, TransactionId};
use std::rt::Files;
use std::{fs, io};

// What stands for the length of a file that is longer than its buffer.
const LONGER: usize = 65536;

// The bytes of status pages, with four ids in each.
const PAGES: usize = 8192;

const IDS: usize = 4 * PAGES;

// The ids from the mark on.
fn entries(rt: &impl Print, body: &[u8; PAGES], mark: u64) -> io::Result<()> {
    for id in mark as usize..IDS {
        match body[id / 4] >> (id % 4 * 2) & 3 {
            2 => println!(rt; "{id} C")?,
            3 => println!(rt; "{id} A")?,
            _ => {}
        }
    }
    Ok(())
}

// The file that was written is read again, and told.
fn report(rt: &(impl Files + Print), mark: u64) -> io::Result<()> {
    let mut pages = [0u8; PAGES];
    let mut body = [0u8; PAGES];
    let Ok(read) = intake::fetch(rt, "store.db.xact", &mut pages) else {
        return println!(rt; "store.db.xact cannot be read");
    };
    let len = read.unwrap_or(LONGER);
    match xacts::read_pages(&pages[..len.min(PAGES)], &mut body) {
        Ok(_) => {
            entries(rt, &body, mark)?;
            println!(rt; "bytes {len}")
        }
        Err(_) => println!(rt; "store.db.xact has other bytes"),
    }
}

fn put_out(rt: &(impl Files + Print), mark: u64, clog: &[u8; 4096], len: usize) -> io::Result<()> {
    let mut pages = [0u8; PAGES];
    match xacts::write_pages(&clog[..], len, TransactionId(mark), &mut pages) {
        Ok(n) => {
            println!(rt; "pages 0")?;
            println!(rt; "mark {mark}")?;
            if fs::write(rt, "store.db.xact", &pages[..n.min(PAGES)]).is_err() {
                return println!(rt; "store.db.xact cannot be written");
            }
            report(rt, mark)
        }
        Err(refusal) => println!(rt; "pages {}", refusal.number()),
    }
}

// The mark of page 0, 0 where there is no meta page; refused where the database does not fit its buffer.
fn mark_of(db: &[u8], len: usize) -> Result<u64, Refusal> {
    Ok(meta::read_meta(db, len)?.map_or(0, |m| m.mark.0))
}

fn main(rt: HostRuntime) -> io::Result<()> {
    let mut db = [0u8; 32768];
    let mut clog = [0u8; 4096];
    let db_read = intake::fetch(&rt, "store.db", &mut db);
    let clog_read = intake::fetch(&rt, "store.db.clog", &mut clog);
    let Ok(db_len) = db_read else {
        return println!(rt; "store.db cannot be read");
    };
    let Ok(clog_len) = clog_read else {
        return println!(rt; "store.db.clog cannot be read");
    };
    match mark_of(&db[..], db_len.unwrap_or(LONGER)) {
        Ok(mark) => put_out(&rt, mark, &clog, clog_len.unwrap_or(LONGER)),
        Err(refusal) => println!(rt; "pages {}", refusal.number()),
    }
}
