// Runs the pager's calls at each limit and past it, and writes for each case the number that was answered. Every case has a store and buffers of its own: which
// lengths, pages, entries and frames the store has is what a limit is about, and the bytes of the buffers are of no account. The last cases meet several refusals
// at once, and are freed of one after the other.
#![tactic(auto)]

use fields::numbers::NO_PAGE;
use fields::{CommitTime, Refusal, TransactionId};
use form::{Held, Store};
use frames::{Frames, Touched, Transaction};
use std::io;
use table::{Status, Table};
use world::{Lens, Slot};

// The greatest number of a page.
const LAST_PAGE: u32 = 4294967294;

fn line(rt: &impl Print, name: &str, n: u8) -> io::Result<()> {
    println!(rt; "{name} {n}")
}

// At a limit, and past it.
fn pair(rt: &impl Print, name: &str, at: u8, past: u8) -> io::Result<()> {
    println!(rt; "{name} at {at}")?;
    println!(rt; "{name} past {past}")
}

// The number of an answer.
fn number_of<T: Drop>(answer: Result<T, Refusal>) -> u8 {
    match answer {
        Ok(_) => 0,
        Err(refusal) => refusal.number(),
    }
}

// ---- stores

// The store that holds nothing, with these lengths.
fn fresh(log: usize, db: usize, clog: usize) -> Store {
    Store {
        lens: Lens { log, db, clog },
        pages: 0,
        next: TransactionId(1),
        time: CommitTime(1),
        mark: TransactionId(0),
        table: table::empty(),
        frames: frames::no_frames(),
        held: Held {
            slot: Slot::Empty,
            touched: frames::no_pages(),
        },
    }
}

fn somebody(id: u64, touched: Touched) -> Held {
    Held {
        slot: Slot::Installed(TransactionId(id)),
        touched,
    }
}

fn two(a: u32, b: u32) -> [u32; 64] {
    let mut pages = [0u32; 64];
    pages[0] = a;
    pages[1] = b;
    pages
}

// The first pages from 0 on, and a count of them that need not be theirs: what stands past them is 0.
fn first_pages(n: u32, count: usize) -> Touched {
    let mut t = frames::no_pages();
    for page in 0..n {
        t = frames::mark(t, page).unwrap_or(t);
    }
    Touched { count, ..t }
}

// The first ids from 0 on, and a count of them in the same way.
fn first_ids(n: u64, count: usize) -> Table {
    let mut t = table::empty();
    for id in 0..n {
        t = table::with_status(t, TransactionId(id), Status::Aborted).unwrap_or(t);
    }
    Table { count, ..t }
}

// Frames that hold a, or a and b, or these and page 0.
fn framed(a: u32, b: u32, count: usize) -> Store {
    let pages = two(a, b);
    Store {
        frames: Frames { pages, count },
        ..fresh(8, 0, 8)
    }
}

// A transaction that touched a and b.
fn touching(a: u32, b: u32, count: usize) -> Transaction {
    let pages = two(a, b);
    Transaction {
        id: TransactionId(5),
        touched: Touched { pages, count },
    }
}

// ---- calls, each on buffers of its own, unless one is lent

// Two frames.
#[derive(Drop)]
struct Buffers {
    log: [u8; 4127],
    db: [u8; 4096],
    clog: [u8; 73],
    frames: [u8; 8192],
}

fn zeros() -> Buffers {
    Buffers {
        log: [0; 4127],
        db: [0; 4096],
        clog: [0; 73],
        frames: [0; 8192],
    }
}

fn allocate_id(s: Store, frames: &[u8]) -> u8 {
    let b = zeros();
    number_of(quiet::allocate_id(s, &b.log, &b.db, &b.clog, frames))
}

fn allocate_page(s: Store) -> u8 {
    let b = zeros();
    number_of(quiet::allocate_page(s, &b.log, &b.db, &b.clog, &b.frames))
}

fn uninstall(s: Store) -> u8 {
    let b = zeros();
    number_of(quiet::uninstall(s, &b.log, &b.db, &b.clog, &b.frames))
}

fn install(s: Store, x: Transaction) -> u8 {
    let b = zeros();
    number_of(quiet::install(s, x, &b.log, &b.db, &b.clog, &b.frames))
}

fn read(s: Store, page: u32) -> u8 {
    let mut b = zeros();
    let r = quiet::read_page(s, page, &b.log, &b.db, &b.clog, &mut b.frames);
    number_of(r)
}

fn write(s: Store, page: u32) -> u8 {
    let mut b = zeros();
    let bytes = [7u8; 4096];
    let r = quiet::write_page(s, page, &bytes, &b.log, &b.db, &b.clog, &mut b.frames);
    number_of(r)
}

fn begin(s: Store, id: u64) -> u8 {
    let mut b = zeros();
    let id = TransactionId(id);
    let r = calls::begin(s, id, &mut b.log, &mut b.db, &mut b.clog, &mut b.frames);
    number_of(r)
}

fn flush(s: Store, page: u32) -> u8 {
    let mut b = zeros();
    let r = calls::flush(s, page, &mut b.log, &mut b.db, &mut b.clog, &mut b.frames);
    number_of(r)
}

fn commit(s: Store, db: &mut [u8]) -> u8 {
    let mut b = zeros();
    let r = settle::commit(s, &mut b.log, db, &mut b.clog, &mut b.frames);
    number_of(r)
}

// With a list of one page.
fn rollback(s: Store, listed: u32, db: &mut [u8]) -> u8 {
    let mut b = zeros();
    let r = settle::rollback(s, &[listed], &mut b.log, db, &mut b.clog, &mut b.frames);
    number_of(r)
}

fn advance(s: Store) -> u8 {
    let mut b = zeros();
    let mark = TransactionId(1);
    let r = settle::advance(s, mark, &mut b.log, &mut b.db, &mut b.clog, &mut b.frames);
    number_of(r)
}

// ---- a case, by the numbers that it turns on

fn id_at(log: usize) -> u8 {
    allocate_id(fresh(log, 0, 8), &[0; 4096])
}

fn id_short() -> u8 {
    allocate_id(fresh(8, 0, 8), &[0; 4095])
}

fn page_at(db: usize, pages: u32) -> u8 {
    allocate_page(Store {
        pages,
        ..fresh(8, db, 8)
    })
}

fn uninstall_at(clog: usize) -> u8 {
    uninstall(fresh(8, 0, clog))
}

fn install_at(a: u32, b: u32, count: usize) -> u8 {
    install(fresh(8, 0, 8), touching(a, b, count))
}

// While a transaction is in.
fn install_over(a: u32, b: u32, count: usize) -> u8 {
    let s = Store {
        held: somebody(4, frames::no_pages()),
        ..fresh(8, 0, 8)
    };
    install(s, touching(a, b, count))
}

fn read_at(a: u32, b: u32, count: usize, page: u32) -> u8 {
    read(framed(a, b, count), page)
}

fn write_at(a: u32, b: u32, count: usize, page: u32) -> u8 {
    write(framed(a, b, count), page)
}

// With the first ids in the table.
fn begin_at(log: usize, ids: u64, count: usize, id: u64) -> u8 {
    let s = Store {
        table: first_ids(ids, count),
        ..fresh(log, 0, 8)
    };
    begin(s, id)
}

// Inside a transaction that touched the first pages.
fn flush_at(log: usize, clog: usize, touched: u32, count: usize, page: u32) -> u8 {
    let s = Store {
        held: somebody(5, first_pages(touched, count)),
        ..fresh(log, 0, clog)
    };
    flush(s, page)
}

// Outside of a transaction.
fn flush_alone(page: u32) -> u8 {
    flush(fresh(8, 0, 8), page)
}

// A transaction with this id that touched page 0, or nothing where the count is 0. The table is full, with the ids up to 255, and the two frames hold page 3 and
// the one given.
fn crowd(log: usize, id: u64, count: usize, page: u32) -> Store {
    let pages = two(3, page);
    Store {
        table: first_ids(256, 256),
        frames: Frames { pages, count: 2 },
        held: somebody(id, first_pages(1, count)),
        ..fresh(log, 0, 8)
    }
}

fn commit_at(log: usize, id: u64, count: usize, page: u32) -> u8 {
    commit(crowd(log, id, count, page), &mut [0; 4096])
}

// On a database buffer that is a byte short of a page.
fn commit_short(log: usize, id: u64, page: u32) -> u8 {
    commit(crowd(log, id, 0, page), &mut [0; 4095])
}

fn rollback_at(log: usize, id: u64, count: usize, page: u32, listed: u32) -> u8 {
    rollback(crowd(log, id, count, page), listed, &mut [0; 4096])
}

// On a database buffer that is a byte short of a page.
fn rollback_short(log: usize, id: u64, page: u32, listed: u32) -> u8 {
    rollback(crowd(log, id, 0, page), listed, &mut [0; 4095])
}

// Without a transaction.
fn rollback_alone(listed: u32) -> u8 {
    rollback(fresh(8, 0, 8), listed, &mut [0; 4096])
}

fn advance_at(a: u32, b: u32, count: usize) -> u8 {
    advance(framed(a, b, count))
}

// ---- cases

// 1: a length over its buffer, a frame buffer under a page.
fn lengths(rt: &impl Print) -> io::Result<()> {
    pair(rt, "log length 4127", id_at(4127), id_at(4128))?;
    pair(
        rt,
        "database length 4096",
        page_at(4096, 0),
        page_at(4097, 0),
    )?;
    pair(rt, "clog length 73", uninstall_at(73), uninstall_at(74))?;
    pair(rt, "frame buffer of 4096", id_at(8), id_short())
}

// 14: a length under the header; the table, the pages of the transaction that is in or handed in, and the frames, each in form and not.
fn forms(rt: &impl Print) -> io::Result<()> {
    pair(rt, "log length 8", id_at(8), id_at(7))?;
    pair(rt, "clog length 8", uninstall_at(8), uninstall_at(7))?;
    pair(
        rt,
        "ids ascending",
        begin_at(8, 1, 1, 5),
        begin_at(8, 1, 2, 5),
    )?;
    pair(
        rt,
        "256 entries",
        begin_at(8, 256, 256, 5),
        begin_at(8, 256, 257, 5),
    )?;
    pair(
        rt,
        "touched pages ascending",
        flush_at(8, 8, 1, 1, 5),
        flush_at(8, 8, 1, 2, 5),
    )?;
    pair(
        rt,
        "64 touched pages",
        flush_at(8, 8, 64, 64, 5),
        flush_at(8, 8, 64, 65, 5),
    )
}

fn page_lists(rt: &impl Print) -> io::Result<()> {
    pair(
        rt,
        "pages handed in ascending",
        install_at(3, 4, 2),
        install_at(3, 3, 2),
    )?;
    pair(
        rt,
        "page handed in 4294967294",
        install_at(LAST_PAGE, 0, 1),
        install_at(NO_PAGE, 0, 1),
    )?;
    pair(rt, "frames apart", read_at(3, 4, 2, 3), read_at(3, 3, 2, 3))?;
    pair(
        rt,
        "frames for two pages",
        write_at(3, 4, 2, 3),
        write_at(3, 4, 3, 3),
    )?;
    pair(
        rt,
        "frame of 4294967294",
        advance_at(LAST_PAGE, 0, 1),
        advance_at(NO_PAGE, 0, 1),
    )
}

// 9, then 10.
fn page_numbers(rt: &impl Print) -> io::Result<()> {
    pair(
        rt,
        "install with none in",
        install_at(3, 4, 2),
        install_over(3, 4, 2),
    )?;
    pair(
        rt,
        "read 4294967294",
        read_at(0, 0, 0, LAST_PAGE),
        read_at(0, 0, 0, NO_PAGE),
    )?;
    pair(
        rt,
        "write 4294967294",
        write_at(0, 0, 0, LAST_PAGE),
        write_at(0, 0, 0, NO_PAGE),
    )?;
    pair(
        rt,
        "flush 4294967294",
        flush_alone(LAST_PAGE),
        flush_alone(NO_PAGE),
    )?;
    pair(
        rt,
        "allocate page 4294967294",
        page_at(0, LAST_PAGE),
        page_at(0, NO_PAGE),
    )
}

// 11; 4, where a begin takes 9 bytes of log and a commit of one page 4,119; 5.
fn stores_room(rt: &impl Print) -> io::Result<()> {
    pair(
        rt,
        "flush the 64th page",
        flush_at(8, 8, 63, 63, 63),
        flush_at(8, 8, 64, 64, 64),
    )?;
    pair(
        rt,
        "begin with log room",
        begin_at(4118, 0, 0, 5),
        begin_at(4119, 0, 0, 5),
    )?;
    pair(
        rt,
        "commit with log room",
        commit_at(8, 5, 1, 0),
        commit_at(9, 5, 1, 0),
    )?;
    pair(
        rt,
        "commit with database room",
        commit_at(8, 5, 0, 0),
        commit_short(8, 5, 0),
    )
}

// 10, in a list too, also where there would be nothing to do; 4, where a rollback of no data page takes 9 bytes of log and one of one page 4,111; 5.
fn rollbacks(rt: &impl Print) -> io::Result<()> {
    pair(
        rt,
        "list with 4294967294",
        rollback_at(8, 5, 0, 0, LAST_PAGE),
        rollback_at(8, 5, 0, 0, NO_PAGE),
    )?;
    pair(
        rt,
        "list with 4294967294, no transaction",
        rollback_alone(LAST_PAGE),
        rollback_alone(NO_PAGE),
    )?;
    pair(
        rt,
        "rollback of no page with log room",
        rollback_at(4118, 5, 0, 0, 7),
        rollback_at(4119, 5, 0, 0, 7),
    )?;
    pair(
        rt,
        "rollback of a page with log room",
        rollback_at(16, 5, 1, 0, 7),
        rollback_at(17, 5, 1, 0, 7),
    )?;
    pair(
        rt,
        "rollback with database room",
        rollback_at(8, 5, 0, 0, 7),
        rollback_short(8, 5, 0, 7),
    )
}

// 6, 7, 8.
fn memory_room(rt: &impl Print) -> io::Result<()> {
    pair(
        rt,
        "begin with clog room",
        begin_at(8, 0, 0, 259),
        begin_at(8, 0, 0, 260),
    )?;
    pair(
        rt,
        "begin the 256th id",
        begin_at(8, 255, 255, 255),
        begin_at(8, 256, 256, 256),
    )?;
    pair(
        rt,
        "read with a frame",
        read_at(3, 0, 1, 4),
        read_at(3, 4, 2, 5),
    )?;
    pair(
        rt,
        "advance with a frame",
        advance_at(3, 0, 1),
        advance_at(3, 4, 2),
    )
}

// The order 1, 14, 9, 10, 11.
fn first_numbers(rt: &impl Print) -> io::Result<()> {
    line(
        rt,
        "flush that meets 1, 14, 10, 11",
        flush_at(4128, 7, 64, 64, NO_PAGE),
    )?;
    line(
        rt,
        "flush that meets 14, 10, 11",
        flush_at(8, 7, 64, 64, NO_PAGE),
    )?;
    line(
        rt,
        "flush that meets 10, 11",
        flush_at(8, 8, 64, 64, NO_PAGE),
    )?;
    line(rt, "flush that meets 11", flush_at(8, 8, 64, 64, 64))?;
    line(rt, "install that meets 14, 9", install_over(3, 3, 2))?;
    line(rt, "install that meets 9", install_over(3, 4, 2))
}

// The order 4, 5, 6, 7, 8, where a commit of no page takes 18 bytes of log.
fn last_numbers(rt: &impl Print) -> io::Result<()> {
    line(rt, "begin that meets 4, 6", begin_at(4119, 0, 0, 260))?;
    line(
        rt,
        "commit that meets 4, 5, 6, 7, 8",
        commit_short(4110, 260, 4),
    )?;
    line(
        rt,
        "commit that meets 5, 6, 7, 8",
        commit_short(4109, 260, 4),
    )?;
    line(rt, "commit that meets 6, 7, 8", commit_at(4109, 260, 0, 4))?;
    line(rt, "commit that meets 7, 8", commit_at(4109, 259, 0, 4))?;
    line(rt, "commit that meets 8", commit_at(4109, 255, 0, 4))?;
    line(rt, "commit that meets none", commit_at(4109, 255, 0, 0))
}

// The order 10, 4, 5, 6, 7, 8.
fn rollback_numbers(rt: &impl Print) -> io::Result<()> {
    line(
        rt,
        "rollback that meets 10, 4, 5, 6, 7, 8",
        rollback_short(4119, 260, 4, NO_PAGE),
    )?;
    line(
        rt,
        "rollback that meets 4, 5, 6, 7, 8",
        rollback_short(4119, 260, 4, 7),
    )?;
    line(
        rt,
        "rollback that meets 5, 6, 7, 8",
        rollback_short(4118, 260, 4, 7),
    )?;
    line(
        rt,
        "rollback that meets 6, 7, 8",
        rollback_at(4118, 260, 0, 4, 7),
    )?;
    line(
        rt,
        "rollback that meets 7, 8",
        rollback_at(4118, 259, 0, 4, 7),
    )?;
    line(rt, "rollback that meets 8", rollback_at(4118, 255, 0, 4, 7))?;
    line(
        rt,
        "rollback that meets none",
        rollback_at(4118, 255, 0, 0, 7),
    )
}

fn main(rt: HostRuntime) -> io::Result<()> {
    lengths(&rt)?;
    forms(&rt)?;
    page_lists(&rt)?;
    page_numbers(&rt)?;
    stores_room(&rt)?;
    rollbacks(&rt)?;
    memory_room(&rt)?;
    first_numbers(&rt)?;
    last_numbers(&rt)?;
    rollback_numbers(&rt)
}
