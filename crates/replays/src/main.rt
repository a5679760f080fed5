// Replays the commands of the file `script` on a store in four buffers and writes a line of each. The script and what must be written were made by the published
// Rust. A record of it is 24 bytes: an opcode and the arguments a and b, 8 bytes each, little-endian. The first 682 records are read, and no part of one at the end.
//    0  a new case: empty files, no store, no transaction set aside
//    1  the first a bytes (8 at most) of the word b go to the end of the log; 2 of the database; 3 of the clog
//    4  the page of seed a goes to the end of the database: its byte i is a + 7 i + 13 (i div 256), mod 256
//    5  the record of an image goes to the end of the log: page a, its bytes those of seed b
//    6  a meta page goes to the end of the database: next id a, next commit time b, mark 0, version 2
//    7  page 0's mark is made a and its version b
//   10  the store is opened
//   11  the next command, where it is one of 30 to 36, is cut: it is carried out up to its a-th store, as if power went there, and the store is gone
//   20  the page of seed b is written as page a
//   21  page a is read
//   22  an id is allocated; 23 a page
//   24  the transaction is uninstalled and set aside; 25 it is installed again
//   30  begin, id a; 31 flush page a; 32 commit; 33 advance the mark to a
//   34  rollback with no listed page; 35 with page a; 36 with pages a and b
// The commands 0 to 7 drop the store. A line has the opcode, the number of the answer, and what is handed out: an id, a page, a sum over the page read, the id of
// the transaction set aside; 0 where there is nothing. Numbers above 14 are the program's own: 15 no store, 16 no transaction set aside, 17 no such opcode. Then, of
// a store: page count, next id, next commit time, mark, number of entries and a sum over them, the transaction's id and the number of its pages. Then the length of
// log, database and clog, each with a sum over its bytes.
#![tactic(auto)]

use fields::{CommitTime, Refusal, TransactionId, numbers};
use form::Store;
use frames::Transaction;
use meta::Counters;
use opening::Unopened;
use std::io;
use table::{Entry, Status};
use world::{Lens, Slot};

const RECORD: usize = 24;

// The numbers below this one are those of 32 bits.
const WORD: u64 = 4294967296;

#[derive(Clone, Copy)]
struct Command {
    op: u64,
    a: u64,
    b: u64,
}

#[derive(Drop)]
struct Buffers {
    log: [u8; 32768],
    db: [u8; 32768],
    clog: [u8; 256],
    frames: [u8; 32768],
}

// A store, or the lengths that the files have without one.
#[derive(Clone, Copy)]
enum Place {
    Open(Store),
    Closed(Lens),
}

#[derive(Clone, Copy)]
struct State {
    place: Place,
    // The transaction that is set aside.
    aside: Option<Transaction>,
    // The store that the next call is cut at.
    cut: Option<usize>,
}

// Why a command is not carried out: its call is refused, or a reason of the program's own.
#[derive(Clone, Copy)]
enum Denied {
    Refused(Refusal),
    NoStore,
    NoTransaction,
    NoOpcode,
}

impl Denied {
    fn number(self) -> u8 {
        match self {
            Denied::Refused(refusal) => refusal.number(),
            Denied::NoStore => 15,
            Denied::NoTransaction => 16,
            Denied::NoOpcode => 17,
        }
    }
}

impl From<Refusal> for Denied {
    fn from(refusal: Refusal) -> Self {
        Denied::Refused(refusal)
    }
}

// A page number or a version is the low half of an argument.
fn low(n: u64) -> u32 {
    (n % WORD) as u32
}

// ---- what is written

// One step of a sum that tells the order, too.
fn mixed(total: u64, n: u64) -> u64 {
    (total % WORD * 31 + n % WORD) % WORD
}

fn sum(bytes: &[u8]) -> u64 {
    let mut total: u64 = 7;
    for byte in bytes {
        total = mixed(total, *byte as u64);
    }
    total
}

// The file is what the buffer holds up to the length.
fn file_sum(file: &[u8], len: usize) -> u64 {
    sum(&file[..len.min(file.len())])
}

fn entry_mixed(total: u64, e: Entry) -> u64 {
    let (tag, time) = match e.status {
        Status::Active => (1, 0),
        Status::Committed(time) => (2, time.0),
        Status::Aborted => (3, 0),
    };
    mixed(mixed(mixed(total, e.id.0), tag), time)
}

fn show_entries(rt: &impl Print, s: Store, b: &Buffers) -> io::Result<()> {
    let n = quiet::entry_count(s, &b.log, &b.db, &b.clog, &b.frames).unwrap_or(0);
    let mut total: u64 = 7;
    for i in 0..n {
        if let Ok(Some(e)) = quiet::entry_at(s, i, &b.log, &b.db, &b.clog, &b.frames) {
            total = entry_mixed(total, e);
        }
    }
    print!(rt; " {n} {total}")
}

fn show_store(rt: &impl Print, s: Store, b: &Buffers) -> io::Result<()> {
    print!(rt; " | {} {} {} {}", s.pages, s.next.0, s.time.0, s.mark.0)?;
    show_entries(rt, s, b)?;
    match s.held.slot {
        Slot::Installed(id) => print!(rt; " {}", id.0)?,
        Slot::Empty => print!(rt; " -")?,
    }
    print!(rt; " {}", s.held.touched.count)
}

fn show_files(rt: &impl Print, lens: Lens, b: &Buffers) -> io::Result<()> {
    let log = file_sum(&b.log, lens.log);
    let db = file_sum(&b.db, lens.db);
    let clog = file_sum(&b.clog, lens.clog);
    println!(rt;
        " | {} {log} {} {db} {} {clog}",
        lens.log, lens.db, lens.clog
    )
}

fn show_place(rt: &impl Print, place: Place, b: &Buffers) -> io::Result<()> {
    if let Place::Open(s) = place {
        show_store(rt, s, b)?;
    }
    show_files(rt, lens_of(place), b)
}

// ---- states

fn fresh() -> State {
    State {
        place: Place::Closed(Lens {
            log: 0,
            db: 0,
            clog: 0,
        }),
        aside: None,
        cut: None,
    }
}

fn lens_of(place: Place) -> Lens {
    match place {
        Place::Open(s) => s.lens,
        Place::Closed(lens) => lens,
    }
}

// ---- files made by hand

fn seeded(seed: u64) -> [u8; 4096] {
    let mut page = [0u8; 4096];
    for (i, byte) in page.iter_mut().enumerate() {
        let n = seed % 256 + 7 * i as u64 + 13 * (i / 256) as u64;
        *byte = (n % 256) as u8;
    }
    page
}

// Bytes to a file's end, and its length then; what does not fit is left out whole.
fn added(file: &mut [u8], len: usize, bytes: &[u8]) -> usize {
    if file.len() < len || file.len() - len < bytes.len() {
        return len;
    }
    fields::lay(file, len, bytes);
    len + bytes.len()
}

fn word_added(file: &mut [u8], len: usize, count: u64, word: u64) -> usize {
    let bytes = word.to_le_bytes();
    added(file, len, &bytes[..(count as usize).min(8)])
}

// The length after a write to the log; a refusal leaves it.
fn image_added(log: &mut [u8], len: usize, page: u32, seed: u64) -> usize {
    wal::append_page(log, len, page, &seeded(seed)).unwrap_or(len)
}

fn meta_added(db: &mut [u8], len: usize, next: u64, time: u64) -> usize {
    let mut page = [0u8; 4096];
    let m = Counters {
        next: TransactionId(next),
        time: CommitTime(time),
        mark: TransactionId(0),
    };
    meta::put_meta(&mut page, 0, m);
    added(db, len, &page[..])
}

// Where there is no page 0 nothing is marked.
fn marked(db: &mut [u8], len: usize, mark: u64, version: u32) -> usize {
    if numbers::PAGE_SIZE <= len {
        fields::put_u64(db, 24, mark);
        fields::put_u32(db, 32, version);
    }
    len
}

// The lengths after one of the commands 1 to 7.
fn built(old: Lens, c: Command, b: &mut Buffers) -> Lens {
    let Lens {
        mut log,
        mut db,
        mut clog,
    } = old;
    match c.op {
        1 => log = word_added(&mut b.log, log, c.a, c.b),
        2 => db = word_added(&mut b.db, db, c.a, c.b),
        3 => clog = word_added(&mut b.clog, clog, c.a, c.b),
        4 => db = added(&mut b.db, db, &seeded(c.a)),
        5 => log = image_added(&mut b.log, log, low(c.a), c.b),
        6 => db = meta_added(&mut b.db, db, c.a, c.b),
        _ => db = marked(&mut b.db, db, c.a, low(c.b)),
    }
    Lens { log, db, clog }
}

// ---- opening

// Why there is no store, and the database's length then: an opening that found a bad record has the images laid.
fn stopped(why: Unopened, db: usize) -> (Refusal, usize) {
    match why {
        Unopened::Refused(refusal) => (refusal, db),
        Unopened::Torn(n) => (Refusal::Torn, n),
        Unopened::Unknown(n) => (Refusal::UnknownTag, n),
    }
}

fn opened(s: &mut State, b: &mut Buffers) -> Result<u64, Denied> {
    let lens = lens_of(s.place);
    match opens::open(lens, &mut b.log, &mut b.db, &mut b.clog, &b.frames) {
        Ok(store) => {
            s.place = Place::Open(store);
            Ok(0)
        }
        Err(why) => {
            let (refusal, db) = stopped(why, lens.db);
            s.place = Place::Closed(Lens { db, ..lens });
            Err(Denied::Refused(refusal))
        }
    }
}

// ---- calls with no stores: each gives what it hands out, 0 where that is nothing. A refusal leaves the store.

fn page_written(s: &mut State, store: Store, c: Command, b: &mut Buffers) -> Result<u64, Denied> {
    let bytes = seeded(c.b);
    let page = low(c.a);
    let left = quiet::write_page(store, page, &bytes, &b.log, &b.db, &b.clog, &mut b.frames)?;
    s.place = Place::Open(left);
    Ok(0)
}

fn page_told(s: &mut State, store: Store, page: u32, b: &mut Buffers) -> Result<u64, Denied> {
    let (bytes, left) = quiet::read_page(store, page, &b.log, &b.db, &b.clog, &mut b.frames)?;
    s.place = Place::Open(left);
    Ok(sum(&bytes))
}

fn id_given(s: &mut State, store: Store, b: &Buffers) -> Result<u64, Denied> {
    let (id, left) = quiet::allocate_id(store, &b.log, &b.db, &b.clog, &b.frames)?;
    s.place = Place::Open(left);
    Ok(id.0)
}

fn page_given(s: &mut State, store: Store, b: &Buffers) -> Result<u64, Denied> {
    let (page, left) = quiet::allocate_page(store, &b.log, &b.db, &b.clog, &b.frames)?;
    s.place = Place::Open(left);
    Ok(page as u64)
}

// Where it is refused, none is aside.
fn uninstalled(s: &mut State, store: Store, b: &Buffers) -> Result<u64, Denied> {
    s.aside = None;
    let (held, left) = quiet::uninstall(store, &b.log, &b.db, &b.clog, &b.frames)?;
    s.place = Place::Open(left);
    let Slot::Installed(id) = held.slot else {
        return Ok(0);
    };
    s.aside = Some(Transaction {
        id,
        touched: held.touched,
    });
    Ok(id.0)
}

// Where it is refused the transaction stays aside.
fn installed(s: &mut State, store: Store, b: &Buffers) -> Result<u64, Denied> {
    let x = s.aside.ok_or(Denied::NoTransaction)?;
    let left = quiet::install(store, x, &b.log, &b.db, &b.clog, &b.frames)?;
    s.place = Place::Open(left);
    s.aside = None;
    Ok(0)
}

fn quietly(s: &mut State, store: Store, c: Command, b: &mut Buffers) -> Result<u64, Denied> {
    match c.op {
        20 => page_written(s, store, c, b),
        21 => page_told(s, store, low(c.a), b),
        22 => id_given(s, store, b),
        23 => page_given(s, store, b),
        24 => uninstalled(s, store, b),
        _ => installed(s, store, b),
    }
}

// ---- calls with stores

fn carried(s: Store, c: Command, b: &mut Buffers) -> Result<Store, Refusal> {
    let list = [low(c.a), low(c.b)];
    let (log, db, clog, frames) = (&mut b.log, &mut b.db, &mut b.clog, &mut b.frames);
    match c.op {
        30 => calls::begin(s, TransactionId(c.a), log, db, clog, frames),
        31 => calls::flush(s, low(c.a), log, db, clog, frames),
        32 => settle::commit(s, log, db, clog, frames),
        33 => settle::advance(s, TransactionId(c.a), log, db, clog, frames),
        34 => settle::rollback(s, &list[..0], log, db, clog, frames),
        35 => settle::rollback(s, &list[..1], log, db, clog, frames),
        _ => settle::rollback(s, &list[..], log, db, clog, frames),
    }
}

fn cut_at(s: Store, c: Command, k: usize, b: &mut Buffers) -> Result<Lens, Refusal> {
    let list = [low(c.a), low(c.b)];
    let (log, db, clog, frames) = (&mut b.log, &mut b.db, &mut b.clog, &b.frames);
    match c.op {
        30 => calls::begin_to(s, TransactionId(c.a), k, log, db, clog, frames),
        31 => calls::flush_to(s, low(c.a), k, log, db, clog, frames),
        32 => settle::commit_to(s, k, log, db, clog, frames),
        33 => settle::advance_to(s, TransactionId(c.a), k, log, db, clog, frames),
        34 => settle::rollback_to(s, &list[..0], k, log, db, clog, frames),
        35 => settle::rollback_to(s, &list[..1], k, log, db, clog, frames),
        _ => settle::rollback_to(s, &list[..], k, log, db, clog, frames),
    }
}

// A refused call has no stores to be cut at, and leaves the store.
fn stored(s: &mut State, store: Store, c: Command, b: &mut Buffers) -> Result<u64, Denied> {
    s.place = match s.cut {
        Some(k) => Place::Closed(cut_at(store, c, k, b)?),
        None => Place::Open(carried(store, c, b)?),
    };
    Ok(0)
}

// ---- the script

fn on_store(s: &mut State, c: Command, b: &mut Buffers) -> Result<u64, Denied> {
    match s.place {
        Place::Open(store) if c.op < 30 => quietly(s, store, c, b),
        Place::Open(store) => stored(s, store, c, b),
        Place::Closed(_) => Err(Denied::NoStore),
    }
}

// What a command hands out.
fn obeyed(s: &mut State, c: Command, b: &mut Buffers) -> Result<u64, Denied> {
    match c.op {
        0 => *s = fresh(),
        1..=7 => s.place = Place::Closed(built(lens_of(s.place), c, b)),
        10 => return opened(s, b),
        11 => {}
        20..=25 | 30..=36 => return on_store(s, c, b),
        _ => return Err(Denied::NoOpcode),
    }
    Ok(0)
}

// A refused read is told with the sum over a page of zeros.
fn told(c: Command, answer: Result<u64, Denied>) -> (u8, u64) {
    match answer {
        Ok(gave) => (0, gave),
        Err(Denied::Refused(refusal)) if c.op == 21 => (refusal.number(), sum(&[0; 4096])),
        Err(why) => (why.number(), 0),
    }
}

// The cut that the next command is to have. No call has a thousand stores.
fn next_cut(c: Command) -> Option<usize> {
    if c.op == 11 {
        Some((c.a as usize).min(1000))
    } else {
        None
    }
}

fn turn(rt: &impl Print, s: &mut State, c: Command, b: &mut Buffers) -> io::Result<()> {
    let (number, gave) = told(c, obeyed(s, c, b));
    s.cut = next_cut(c);
    print!(rt; "{} {number} {gave}", c.op)?;
    show_place(rt, s.place, b)
}

fn run(rt: &impl Print, script: &[u8], b: &mut Buffers) -> io::Result<()> {
    let mut s = fresh();
    for record in script.chunks_exact(RECORD) {
        let c = Command {
            op: fields::get_u64(record, 0),
            a: fields::get_u64(record, 8),
            b: fields::get_u64(record, 16),
        };
        turn(rt, &mut s, c, b)?;
    }
    Ok(())
}

fn main(rt: HostRuntime) -> io::Result<()> {
    let mut script = [0u8; 16384];
    let n = intake::fetch_start(&rt, "script", &mut script);
    let mut b = Buffers {
        log: [0xEE; 32768],
        db: [0xEE; 32768],
        clog: [0xEE; 256],
        frames: [0xEE; 32768],
    };
    run(&rt, &script[..n], &mut b)
}
