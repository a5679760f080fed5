// Opening, and the calls with stores, for a host in C or Rust. The store stands in the host's own struct, a head of twelve words and three arrays (crate words), lent
// with the four buffers of the files. Each function reads the head, makes the call and writes the head that it leaves; the answer is the call's number. A slice is a
// pointer and a length to the host, an array a pointer.
#![tactic(auto)]

ghost use Rattle.std.specs.Prelude.{◌≡◌, get_or};
ghost use Rattle.world.specs.Calls.{Begin, Flush, Commit, Rollback, Advance};
ghost use Rattle.opening.specs.Opening.{verdict_told};
ghost use Rattle.lent.specs.Lent.{called_lent};
ghost use Rattle.keyon.specs.Keyon.{waking_of};
ghost use Rattle.words.specs.Words.{head_in, words_of, lent_in, standing, standing_of};
ghost use Rattle.hostcalls.specs.Hosted.{opened, hosted_open};

use fields::{Refusal, TransactionId, numbers};
use lent::Head;
use opening::Unopened;
use world::Lens;

// What an opening answers, for a host: the words of the head that it leaves, the database's length where images are laid, else 0, and its number.
fn answer_open(r: Result<Head, Unopened>, head: &mut [u64; 12], told: &mut usize) -> u8
    ensures number { result ≡ (verdict_told (waking_of (head_in head.old) r).verdict).number }
    ensures told { told.new ≡ get_or (verdict_told (waking_of (head_in head.old) r).verdict).values 0 0 }
    ensures words { head.new ≡ words_of (waking_of (head_in head.old) r).head }
{
    match r {
        Ok(after) => {
            words::put_head(head, after);
            *told = after.lens.db;
            numbers::ACCEPTED
        }
        Err(Unopened::Refused(refusal)) => {
            *told = 0;
            refusal.number()
        }
        Err(Unopened::Torn(db)) => {
            *told = db;
            Refusal::Torn.number()
        }
        Err(Unopened::Unknown(db)) => {
            *told = db;
            Refusal::UnknownTag.number()
        }
    }
}

// A refused opening leaves every word of the store. It tells the database's length where images are laid, else 0.
pub fn nyotmelang_pager_open(
    head: &mut [u64; 12],
    rows: &mut [[u64; 3]; 256],
    resident: &mut [u32; 64],
    touched: &mut [u64; 64],
    log_len: usize,
    db_len: usize,
    clog_len: usize,
    log: &mut [u8],
    db: &mut [u8],
    clog: &mut [u8],
    frames: &[u8],
    told: &mut usize,
) -> u8
    ensures { opened told.new (standing result head.new rows.new resident.new touched.new log.exit.now db.new clog.new frames.now) ≡ hosted_open 4096 (record { log = log_len; db = db_len; clog = clog_len }) (lent_in head.old rows.old resident.old touched.old) log.entry.now db.old clog.old frames.now }
{
    let lens = Lens {
        log: log_len,
        db: db_len,
        clog: clog_len,
    };
    let h = words::head_in(&*head);
    let r = keyon::open(lens, h, rows, resident, touched, log, db, clog, frames);
    answer_open(r, head, told)
}

pub fn nyotmelang_pager_begin(
    head: &mut [u64; 12],
    rows: &mut [[u64; 3]; 256],
    resident: &mut [u32; 64],
    touched: &mut [u64; 64],
    id: u64,
    log: &mut [u8],
    db: &mut [u8],
    clog: &mut [u8],
    frames: &mut [u8],
) -> u8
    ensures { standing result head.new rows.new resident.new touched.new log.new db.new clog.new frames.new ≡ standing_of (called_lent 4096 (Begin (record { 0 = id })) (lent_in head.old rows.old resident.old touched.old) log.old db.old clog.old frames.old) }
{
    let h = words::head_in(&*head);
    let r = begins::begin(
        h,
        rows,
        resident,
        touched,
        TransactionId(id),
        log,
        db,
        clog,
        frames,
    );
    words::answer(head, r)
}

pub fn nyotmelang_pager_flush(
    head: &mut [u64; 12],
    rows: &mut [[u64; 3]; 256],
    resident: &mut [u32; 64],
    touched: &mut [u64; 64],
    page: u32,
    log: &mut [u8],
    db: &mut [u8],
    clog: &mut [u8],
    frames: &mut [u8],
) -> u8
    ensures { standing result head.new rows.new resident.new touched.new log.new db.new clog.new frames.new ≡ standing_of (called_lent 4096 (Flush page) (lent_in head.old rows.old resident.old touched.old) log.old db.old clog.old frames.old) }
{
    let h = words::head_in(&*head);
    let r = begins::flush(h, rows, resident, touched, page, log, db, clog, frames);
    words::answer(head, r)
}

pub fn nyotmelang_pager_commit(
    head: &mut [u64; 12],
    rows: &mut [[u64; 3]; 256],
    resident: &mut [u32; 64],
    touched: &mut [u64; 64],
    log: &mut [u8],
    db: &mut [u8],
    clog: &mut [u8],
    frames: &mut [u8],
) -> u8
    ensures { standing result head.new rows.new resident.new touched.new log.new db.new clog.new frames.new ≡ standing_of (called_lent 4096 Commit (lent_in head.old rows.old resident.old touched.old) log.old db.old clog.old frames.old) }
{
    let h = words::head_in(&*head);
    let r = ends::commit(h, rows, resident, touched, log, db, clog, frames);
    words::answer(head, r)
}

pub fn nyotmelang_pager_rollback(
    head: &mut [u64; 12],
    rows: &mut [[u64; 3]; 256],
    resident: &mut [u32; 64],
    touched: &mut [u64; 64],
    list: &[u32],
    log: &mut [u8],
    db: &mut [u8],
    clog: &mut [u8],
    frames: &mut [u8],
) -> u8
    ensures { standing result head.new rows.new resident.new touched.new log.new db.new clog.new frames.new ≡ standing_of (called_lent 4096 (Rollback list.now) (lent_in head.old rows.old resident.old touched.old) log.old db.old clog.old frames.old) }
{
    let h = words::head_in(&*head);
    let r = ends::rollback(h, rows, resident, touched, list, log, db, clog, frames);
    words::answer(head, r)
}

pub fn nyotmelang_pager_advance(
    head: &mut [u64; 12],
    rows: &mut [[u64; 3]; 256],
    resident: &mut [u32; 64],
    touched: &mut [u64; 64],
    mark: u64,
    log: &mut [u8],
    db: &mut [u8],
    clog: &mut [u8],
    frames: &mut [u8],
) -> u8
    ensures { standing result head.new rows.new resident.new touched.new log.new db.new clog.new frames.new ≡ standing_of (called_lent 4096 (Advance (record { 0 = mark })) (lent_in head.old rows.old resident.old touched.old) log.old db.old clog.old frames.old) }
{
    let h = words::head_in(&*head);
    let r = ends::advance(
        h,
        rows,
        resident,
        touched,
        TransactionId(mark),
        log,
        db,
        clog,
        frames,
    );
    words::answer(head, r)
}
