// Runs rollbacks on a store whose database is a page of zeros and one byte more, and writes of each call its number and the lengths of the files after it; of a
// rollback also how many stores there will be, and sums over the files after it. Of the last rollback each store is told, and it is cut at some of them, on copies
// of the buffers, before it is carried out.
#![tactic(auto)]

use fields::{CommitTime, Refusal, TransactionId};
use form::{Held, Store};
use std::io;
use stores::Telling;
use table::{Entry, Status};
use world::{Lens, Slot};

fn sum(bytes: &[u8]) -> u64 {
    let mut total: u64 = 7;
    for byte in bytes {
        total = (total * 31 + *byte as u64) % 65521;
    }
    total
}

// A store and its four buffers.
#[derive(Clone, Copy)]
struct Run {
    store: Store,
    log: [u8; 16384],
    db: [u8; 20480],
    clog: [u8; 64],
    frames: [u8; 20480],
}

// ---- what is written of a call

// The number of an answer.
fn number_of<T: Drop>(answer: Result<T, Refusal>) -> u8 {
    match answer {
        Ok(_) => 0,
        Err(refusal) => refusal.number(),
    }
}

// The end of a line: a call's number and the lengths of the files after it. A refusal leaves the store.
fn answered(rt: &impl Print, r: &mut Run, answer: Result<Store, Refusal>) -> io::Result<()> {
    r.store = answer.unwrap_or(r.store);
    let Lens { log, db, clog } = r.store.lens;
    println!(rt; " {} {log} {db} {clog}", number_of(answer))
}

// A call by its name, with the id or page that it has to do with.
fn named(
    rt: &impl Print,
    r: &mut Run,
    name: &str,
    n: u64,
    answer: Result<Store, Refusal>,
) -> io::Result<()> {
    print!(rt; "{name} {n}")?;
    answered(rt, r, answer)
}

// The file is what the buffer holds up to the length.
fn file_sum(file: &[u8], len: usize) -> u64 {
    sum(&file[..len.min(file.len())])
}

fn sums(rt: &impl Print, name: &str, r: &Run) -> io::Result<()> {
    let lens = r.store.lens;
    let log = file_sum(&r.log, lens.log);
    let db = file_sum(&r.db, lens.db);
    let clog = file_sum(&r.clog, lens.clog);
    println!(rt; "{name} {log} {db} {clog}")
}

fn show(rt: &impl Print, k: usize, t: Option<Telling>) -> io::Result<()> {
    match t {
        Some(t) => println!(rt; "store {k} {} {} {}", t.kind.number(), t.offset, t.size),
        None => println!(rt; "store {k} nothing"),
    }
}

// ---- calls

fn begin(rt: &impl Print, r: &mut Run, id: u64) -> io::Result<()> {
    let c = calls::begin(
        r.store,
        TransactionId(id),
        &mut r.log,
        &mut r.db,
        &mut r.clog,
        &mut r.frames,
    );
    named(rt, r, "begin", id, c)
}

// All the page's bytes are this one. It is written and flushed inside a transaction, which then has touched the page.
fn touch(rt: &impl Print, r: &mut Run, page: u32, byte: u8) -> io::Result<()> {
    let bytes = [byte; 4096];
    let written = quiet::write_page(r.store, page, &bytes, &r.log, &r.db, &r.clog, &mut r.frames);
    named(rt, r, "write", page as u64, written)?;
    let flushed = calls::flush(
        r.store,
        page,
        &mut r.log,
        &mut r.db,
        &mut r.clog,
        &mut r.frames,
    );
    named(rt, r, "flush", page as u64, flushed)
}

// Of the page its first byte is written, and a sum over all of them.
fn read_page(rt: &impl Print, r: &mut Run, page: u32) -> io::Result<()> {
    let read = quiet::read_page(r.store, page, &r.log, &r.db, &r.clog, &mut r.frames);
    named(rt, r, "read", page as u64, read.map(|(_, store)| store))?;
    let bytes = read.map_or([0; 4096], |(bytes, _)| bytes);
    let first = bytes[0];
    let total = sum(&bytes);
    println!(rt; "page {page} {first} {total}")
}

fn count_stores(rt: &impl Print, r: &Run, name: &str, list: &[u32]) -> io::Result<()> {
    let c = settle::rollback_count(r.store, list, &r.log, &r.db, &r.clog, &r.frames);
    println!(rt;
        "stores of a rollback {name} {} {}",
        number_of(c),
        c.unwrap_or(0)
    )
}

// Counted, then carried out.
fn rollback(rt: &impl Print, r: &mut Run, name: &str, list: &[u32]) -> io::Result<()> {
    count_stores(rt, r, name, list)?;
    let c = settle::rollback(
        r.store,
        list,
        &mut r.log,
        &mut r.db,
        &mut r.clog,
        &mut r.frames,
    );
    print!(rt; "rollback")?;
    answered(rt, r, c)?;
    sums(rt, "files", r)
}

// Every store of a rollback, and the two places where there is none: before the first and after the last.
fn tellings(rt: &impl Print, r: &Run, list: &[u32]) -> io::Result<()> {
    for k in 0..11 {
        let told = settle::rollback_told(r.store, list, k, &r.log, &r.db, &r.clog, &r.frames);
        show(rt, k, told.unwrap_or(None))?;
    }
    Ok(())
}

// On a copy of the buffers, so that a cut leaves the caller's as they were. Of the store it leaves the lengths of the files alone.
fn cut(rt: &impl Print, r: &Run, list: &[u32], k: usize) -> io::Result<()> {
    let mut left = *r;
    let c = settle::rollback_to(
        r.store,
        list,
        k,
        &mut left.log,
        &mut left.db,
        &mut left.clog,
        &r.frames,
    );
    let lens = c.unwrap_or(r.store.lens);
    left.store.lens = lens;
    println!(rt;
        "cut {k} {} {} {} {}",
        number_of(c),
        lens.log,
        lens.db,
        lens.clog
    )?;
    sums(rt, "cut files", &left)
}

// ---- the table

fn show_entry(rt: &impl Print, at: Option<Entry>) -> io::Result<()> {
    let Some(e) = at else {
        return println!(rt; "entry nothing");
    };
    match e.status {
        Status::Active => println!(rt; "entry {} I", e.id.0),
        Status::Committed(time) => println!(rt; "entry {} C {}", e.id.0, time.0),
        Status::Aborted => println!(rt; "entry {} A", e.id.0),
    }
}

fn entries(rt: &impl Print, r: &Run) -> io::Result<()> {
    let c = quiet::entry_count(r.store, &r.log, &r.db, &r.clog, &r.frames);
    let n = c.unwrap_or(0);
    println!(rt; "entries {} {n}", number_of(c))?;
    for i in 0..n {
        let e = quiet::entry_at(r.store, i, &r.log, &r.db, &r.clog, &r.frames);
        show_entry(rt, e.unwrap_or(None))?;
    }
    Ok(())
}

// ---- the rollbacks

// Without a transaction; then with page 1 alone. The file has no whole page 1, so that page 1 becomes zeros.
fn no_data_page(rt: &impl Print, r: &mut Run) -> io::Result<()> {
    rollback(rt, r, "without a transaction", &[])?;
    begin(rt, r, 7)?;
    touch(rt, r, 1, 0x11)?;
    rollback(rt, r, "of no data page", &[])?;
    read_page(rt, r, 1)
}

// Page 3 is written before page 1 is read back from the file, and has lengthened it: page 1 becomes the byte that stood past the first page, and zeros.
fn one_data_page(rt: &impl Print, r: &mut Run) -> io::Result<()> {
    begin(rt, r, 8)?;
    touch(rt, r, 1, 0x11)?;
    touch(rt, r, 3, 0x33)?;
    rollback(rt, r, "of one data page", &[])?;
    read_page(rt, r, 1)
}

fn four_pages(rt: &impl Print, r: &mut Run) -> io::Result<()> {
    begin(rt, r, 9)?;
    touch(rt, r, 1, 0x55)?;
    touch(rt, r, 3, 0x66)?;
    touch(rt, r, 4, 0x77)?;
    touch(rt, r, 5, 0x88)
}

// The list takes page 5 out of the data pages, which leaves 3 and 4. The file has no page 5, so that page 5 becomes zeros.
fn two_data_pages(rt: &impl Print, r: &mut Run) -> io::Result<()> {
    let list = [5u32, 5, 2];
    four_pages(rt, r)?;
    tellings(rt, r, &list)?;
    for k in [0, 5, 9, 12] {
        cut(rt, r, &list, k)?;
    }
    rollback(rt, r, "of two data pages", &list)?;
    for page in [1, 3, 5] {
        read_page(rt, r, page)?;
    }
    Ok(())
}

// The store that holds nothing, in one page.
fn fresh() -> Store {
    Store {
        lens: Lens {
            log: 0,
            db: 0,
            clog: 0,
        },
        pages: 1,
        next: TransactionId(1),
        time: CommitTime(1),
        mark: TransactionId(0),
        table: table::empty(),
        frames: frames::no_frames(),
        held: Held {
            slot: Slot::Empty,
            touched: frames::no_pages(),
        },
    }
}

// The database is a page of zeros and the byte 07, log and clog are their headers; what stands past the lengths is of no account.
fn start(r: &mut Run) {
    r.db[..4096].fill(0);
    r.db[4096] = 7;
    r.store.lens = Lens {
        log: wal::truncate(&mut r.log, 0).unwrap_or(0),
        db: 4097,
        clog: clog::open(&mut r.clog, 0).unwrap_or(0),
    };
}

fn main(rt: HostRuntime) -> io::Result<()> {
    let mut r = Run {
        store: fresh(),
        log: [0xEE; 16384],
        db: [0xEE; 20480],
        clog: [0xEE; 64],
        frames: [0xEE; 20480],
    };
    start(&mut r);
    no_data_page(&rt, &mut r)?;
    one_data_page(&rt, &mut r)?;
    two_data_pages(&rt, &mut r)?;
    entries(&rt, &r)
}
