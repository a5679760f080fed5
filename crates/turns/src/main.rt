// Runs calls on a store that holds nothing yet, and writes of each its number and the lengths of the files after it; of a commit and of a mark also how many
// stores there will be, and of a commit what each of them is. The last calls read the page with the greatest number and ask for one more.
#![tactic(auto)]

use fields::{CommitTime, Refusal, TransactionId};
use form::{Held, Store};
use std::io;
use stores::Telling;
use world::{Lens, Slot};

fn sum(bytes: &[u8]) -> u64 {
    let mut total: u64 = 7;
    for byte in bytes {
        total = (total * 31 + *byte as u64) % 65521;
    }
    total
}

// A store and its four buffers.
#[derive(Drop)]
struct Run {
    store: Store,
    log: [u8; 16384],
    db: [u8; 20480],
    clog: [u8; 64],
    frames: [u8; 16384],
}

// ---- what is written

// A call by its name, and what it answers. A refusal leaves the store.
fn answered(
    rt: &impl Print,
    r: &mut Run,
    name: &str,
    answer: Result<Store, Refusal>,
) -> io::Result<()> {
    let number = match answer {
        Ok(store) => {
            r.store = store;
            0
        }
        Err(refusal) => refusal.number(),
    };
    let lens = r.store.lens;
    println!(rt; "{name} {number} {} {} {}", lens.log, lens.db, lens.clog)
}

fn counted(rt: &impl Print, name: &str, stores: Result<usize, Refusal>) -> io::Result<()> {
    match stores {
        Ok(n) => println!(rt; "stores of {name} 0 {n}"),
        Err(refusal) => println!(rt; "stores of {name} {} 0", refusal.number()),
    }
}

fn show(rt: &impl Print, k: usize, t: Option<Telling>) -> io::Result<()> {
    match t {
        Some(t) => println!(rt; "store {k} {} {} {}", t.kind.number(), t.offset, t.size),
        None => println!(rt; "store {k} nothing"),
    }
}

// Every store of a commit, and the two places where there is none: before the first and after the last.
fn commit_tellings(rt: &impl Print, r: &Run) -> io::Result<()> {
    for k in 0..11 {
        let told = settle::commit_told(r.store, k, &r.log, &r.db, &r.clog, &r.frames);
        show(rt, k, told.unwrap_or(None))?;
    }
    Ok(())
}

fn sums(rt: &impl Print, r: &Run) -> io::Result<()> {
    println!(rt; "clog and database {} {}", sum(&r.clog), sum(&r.db))
}

fn page_sum(rt: &impl Print, bytes: &[u8]) -> io::Result<()> {
    println!(rt; "page {}", sum(bytes))
}

// ---- calls

fn begin(rt: &impl Print, r: &mut Run, name: &str, id: u64) -> io::Result<()> {
    let id = TransactionId(id);
    let c = calls::begin(
        r.store,
        id,
        &mut r.log,
        &mut r.db,
        &mut r.clog,
        &mut r.frames,
    );
    answered(rt, r, name, c)
}

// A page whose bytes are all this one is written and flushed, which marks it.
fn touch(rt: &impl Print, r: &mut Run, page: u32, byte: u8) -> io::Result<()> {
    let bytes = [byte; 4096];
    let written = quiet::write_page(r.store, page, &bytes, &r.log, &r.db, &r.clog, &mut r.frames);
    answered(rt, r, "write", written)?;
    let flushed = calls::flush(
        r.store,
        page,
        &mut r.log,
        &mut r.db,
        &mut r.clog,
        &mut r.frames,
    );
    answered(rt, r, "flush", flushed)
}

fn count_commit(rt: &impl Print, r: &Run, name: &str) -> io::Result<()> {
    let c = settle::commit_count(r.store, &r.log, &r.db, &r.clog, &r.frames);
    counted(rt, name, c)
}

fn commit(rt: &impl Print, r: &mut Run) -> io::Result<()> {
    let c = settle::commit(r.store, &mut r.log, &mut r.db, &mut r.clog, &mut r.frames);
    answered(rt, r, "commit", c)
}

fn count_advance(rt: &impl Print, r: &Run, name: &str, mark: u64) -> io::Result<()> {
    let mark = TransactionId(mark);
    let c = settle::advance_count(r.store, mark, &r.log, &r.db, &r.clog, &r.frames);
    counted(rt, name, c)
}

fn advance(rt: &impl Print, r: &mut Run, name: &str, mark: u64) -> io::Result<()> {
    let mark = TransactionId(mark);
    let c = settle::advance(
        r.store,
        mark,
        &mut r.log,
        &mut r.db,
        &mut r.clog,
        &mut r.frames,
    );
    answered(rt, r, name, c)?;
    sums(rt, r)
}

// ---- the turns

fn empty_commit(rt: &impl Print, r: &mut Run) -> io::Result<()> {
    count_commit(rt, r, "a commit without a transaction")?;
    begin(rt, r, "begin 5", 5)?;
    count_commit(rt, r, "a commit of no page")?;
    commit(rt, r)
}

fn full_commit(rt: &impl Print, r: &mut Run) -> io::Result<()> {
    begin(rt, r, "begin 6", 6)?;
    touch(rt, r, 4, 0x44)?;
    touch(rt, r, 3, 0x33)?;
    count_commit(rt, r, "a commit of two pages")?;
    commit_tellings(rt, r)?;
    commit(rt, r)
}

fn marks(rt: &impl Print, r: &mut Run) -> io::Result<()> {
    count_advance(rt, r, "an equal mark", 0)?;
    count_advance(rt, r, "a higher mark", 6)?;
    sums(rt, r)?;
    advance(rt, r, "advance 0", 0)?;
    advance(rt, r, "advance 6", 6)
}

// The page is past the file's end, so that both sums are those of zeros; there is no number left for one more.
fn far_page(rt: &impl Print, r: &mut Run) -> io::Result<()> {
    let page = 4294967294;
    let read = quiet::read_page(r.store, page, &r.log, &r.db, &r.clog, &mut r.frames);
    answered(rt, r, "read 4294967294", read.map(|(_, store)| store))?;
    page_sum(rt, &read.map_or([0; 4096], |(bytes, _)| bytes))?;
    page_sum(rt, &[0; 4096])?;
    let more = quiet::allocate_page(r.store, &r.log, &r.db, &r.clog, &r.frames);
    answered(rt, r, "allocate", more.map(|(_, store)| store))
}

// The store that holds nothing, and files of no bytes.
fn fresh() -> Store {
    Store {
        lens: Lens {
            log: 0,
            db: 0,
            clog: 0,
        },
        pages: 0,
        next: TransactionId(1),
        time: CommitTime(1),
        mark: TransactionId(0),
        table: table::empty(),
        frames: frames::no_frames(),
        held: Held {
            slot: Slot::Empty,
            touched: frames::no_pages(),
        },
    }
}

fn main(rt: HostRuntime) -> io::Result<()> {
    let mut r = Run {
        store: fresh(),
        log: [0xEE; 16384],
        db: [0xEE; 20480],
        clog: [0xEE; 64],
        frames: [0xEE; 16384],
    };
    r.store.lens.log = wal::truncate(&mut r.log, 0).unwrap_or(0);
    r.store.lens.clog = clog::open(&mut r.clog, 0).unwrap_or(0);
    empty_commit(&rt, &mut r)?;
    full_commit(&rt, &mut r)?;
    marks(&rt, &mut r)?;
    far_page(&rt, &mut r)
}
