// Opening a store where it is lent: test, lay the images, clog, rows, head, truncate. What comes out is defined in specs/Keyon.antt over the crate opening. Every test
// that can refuse with 1, 12 or 4 to 7 stands before the first change, and no lent array changes before the opening is accepted: both tables are made in scratch.
#![tactic(auto)]

ghost use Rattle.std.specs.Prelude.{◌≡◌, map, false, ◌≤◌, max, length, take};
ghost use Rattle.fields.specs.Files.{file_of, unfit};
ghost use Rattle.fields.specs.Refusals.{number_in};
ghost use Rattle.sorted.specs.Sorted.{laid_on};
ghost use Rattle.rows.specs.Rows.{entry_of, rowed};
ghost use Rattle.clog.specs.Slots.{open_clog, record_all, settled};
ghost use Rattle.world.specs.World.{files_of};
ghost use Rattle.world.specs.Refusals.{any_of};
ghost use Rattle.lent.specs.Lent.{lent};
ghost use Rattle.opening.specs.Opening.{past_clog};
ghost use Rattle.opens.specs.Inside.{Loadable, clog_by, time_by, meta_counters, plain_counters};
ghost use Rattle.keyon.specs.Keyon.{waking_of, wakes, opened_lent};
ghost use Rattle.keyon.specs.Inside.{entries_of, tabled, room_by, joined, tested_of, Tests, head_at, head_by, rows_by};

use fields::{CommitTime, Refusal, TransactionId, numbers};
use lent::Head;
use meta::Counters;
use opening::Unopened;
use rows::Filled;
use survey::Found;
use world::Lens;

const TABLE_LIMIT: usize = 256;

// How many rows the log's table has, and the clog's with the log's laid over it.
#[derive(Clone, Copy)]
struct Counts {
    logged: usize,
    full: usize,
}

// ---- the tests before a byte changes

// 4, 5 and 6, by the sizes of the log's and the clog's buffer.
#[tactic(auto, unfolding(crate::specs::Inside::room_by))]
fn check_room(s: Found, log: usize, clog: usize) -> Result<(), Refusal>
    ensures { number_in result ≡ room_by s.images s.ids log clog }
{
    if log < numbers::HEADER {
        return Err(Refusal::LogFull);
    }
    if s.images {
        return Err(Refusal::DatabaseFull);
    }
    if clog < numbers::HEADER || s.ids {
        return Err(Refusal::ClogFull);
    }
    Ok(())
}

// The clog's entries listed, and the log's rows set over them.
fn join(
    h: Filled,
    logged: &[[u64; 3]; 256],
    clog: &[u8],
    len: usize,
    full: &mut [[u64; 3]; 256],
) -> Filled
    ensures { rowed result full.new ≡ joined h logged.now (file_of clog.now len) full.old }
{
    if h.number != numbers::ACCEPTED {
        return Filled {
            number: Refusal::TableFull.number(),
            count: 0,
        };
    }
    let c = sweeps::list(clog, len, full);
    rows::overlay(full, c, logged, h.count)
}

fn test(
    lens: Lens,
    log: &[u8],
    db: &[u8],
    clog: &[u8],
    frames: &[u8],
    logged: &mut [[u64; 3]; 256],
    full: &mut [[u64; 3]; 256],
) -> Result<Counts, Refusal>
    ensures { Tests 4096 (files_of lens log.now db.now clog.now) frames.now (tested_of result) logged.new full.new }
{
    if form::buffers_bad(lens, log, db, clog, frames) {
        return Err(Refusal::Unfit);
    }
    meta::check_format(db, lens.db)?;
    let s = survey::survey(log, lens.log, db.len(), clog.len(), logged);
    check_room(s, log.len(), clog.len())?;
    let t = join(s.held, &*logged, clog, lens.clog, full);
    if t.number != numbers::ACCEPTED {
        return Err(Refusal::TableFull);
    }
    s.ending?;
    Ok(Counts {
        logged: s.held.count,
        full: t.count,
    })
}

// ---- counters and head

fn later_id(a: TransactionId, b: TransactionId) -> TransactionId
    ensures { result ≡ record { 0 = max a.0 b.0 } }
{
    TransactionId(a.0.max(b.0))
}

fn later_time(a: CommitTime, b: CommitTime) -> CommitTime
    ensures { result ≡ record { 0 = max a.0 b.0 } }
{
    CommitTime(a.0.max(b.0))
}

// One more than the largest time that is still Committed in the log's table, not of all its commit records.
fn log_time(logged: &[[u64; 3]; 256], n: usize) -> CommitTime
    ensures { result ≡ record { 0 = time_by (tabled (entries_of n logged.now)) } }
{
    let largest = rows::largest_time(logged, n);
    table::next_time(largest)
}

fn meta_counters(
    m: Counters,
    logged: &[[u64; 3]; 256],
    n: usize,
    full: &[[u64; 3]; 256],
    k: usize,
) -> Counters
    ensures { result ≡ meta_counters m (tabled (entries_of n logged.now)) (tabled (entries_of k full.now)) }
{
    let largest = rows::largest_id(full, k);
    let above = table::next_id(largest);
    let stored = later_id(m.next, above);
    let next = later_id(TransactionId(1), stored);
    let found = log_time(logged, n);
    let time = later_time(m.time, found);
    Counters {
        next,
        time,
        mark: m.mark,
    }
}

fn plain_counters(logged: &[[u64; 3]; 256], n: usize) -> Counters
    ensures { result ≡ plain_counters (tabled (entries_of n logged.now)) }
{
    Counters {
        next: TransactionId(1),
        time: log_time(logged, n),
        mark: TransactionId(0),
    }
}

// No page resident, no transaction in.
fn head_at(lens: Lens, c: Counters, entries: usize) -> Head
    ensures { result ≡ head_at 4096 lens c entries }
{
    Head {
        lens,
        pages: (lens.db / numbers::PAGE_SIZE) as u64,
        next: c.next,
        time: c.time,
        mark: c.mark,
        held: 0,
        id: TransactionId(0),
        entries,
        resident: 0,
        touched: 0,
    }
}

fn head_by(
    lens: Lens,
    stored: Option<Counters>,
    logged: &[[u64; 3]; 256],
    n: usize,
    full: &[[u64; 3]; 256],
    k: usize,
) -> Head
    ensures { result ≡ head_by 4096 lens stored (entries_of n logged.now) n (entries_of k full.now) k }
{
    match stored {
        Some(m) => head_at(lens, meta_counters(m, logged, n, full, k), k),
        None => head_at(lens, plain_counters(logged, n), n),
    }
}

fn lay_rows(
    rows: &mut [[u64; 3]; 256],
    stored: Option<Counters>,
    logged: &[[u64; 3]; 256],
    n: usize,
    full: &[[u64; 3]; 256],
    k: usize,
)
    ensures { rows.new ≡ laid_on rows.old (rows_by stored (take n logged.now) (take k full.now)) }
{
    match stored {
        Some(_) => rows::lay(rows, full, k),
        None => rows::lay(rows, logged, n),
    }
}

// ---- the clog

// Every entry of the rows recorded in the clog file, the last one first.
fn record_all(clog: &mut [u8], len: usize, rows: &[[u64; 3]; 256], count: usize) -> usize
    requires { (unfit 1048576 (length clog.old) len ≡ false) × (8 ≤ len) × (any_of (map (past_clog (length clog.old)) (take count (map entry_of rows.now))) ≡ false) }
    ensures { file_of clog.new result ≡ record_all 8 0 (take count (map entry_of rows.now)) (file_of clog.old len) }
{
    let mut n = len;
    for i in (0..count.min(TABLE_LIMIT)).rev() {
        let e = rows::entry_at(rows, i);
        n = clog::record(clog, n, e.id, e.status).unwrap_or(0);
    }
    n
}

// The clog opened, Active become Aborted, and the log's statuses recorded over it.
fn load_clog(clog: &mut [u8], len: usize, logged: &[[u64; 3]; 256], n: usize) -> usize
    requires { Loadable (file_of clog.old len) (entries_of n logged.now) }
    ensures { file_of clog.new result ≡ record_all 8 0 (entries_of n logged.now) (settled 8 (open_clog (file_of clog.old len))) }
{
    let end = clog::open(clog, len).unwrap_or(0);
    sweeps::settle(clog, end);
    record_all(clog, end, logged, n)
}

fn clog_by(
    stored: Option<Counters>,
    clog: &mut [u8],
    len: usize,
    logged: &[[u64; 3]; 256],
    n: usize,
) -> usize
    requires { Loadable (file_of clog.old len) (entries_of n logged.now) }
    ensures { file_of clog.new result ≡ clog_by stored (entries_of n logged.now) (file_of clog.old len) }
{
    match stored {
        Some(_) => load_clog(clog, len, logged, n),
        None => clog::reset(clog, len).unwrap_or(0),
    }
}

// ---- opening

// Where the opening is refused the head stays as it was.
pub fn open(
    lens: Lens,
    h: Head,
    rows: &mut [[u64; 3]; 256],
    resident: &mut [u32; 64],
    touched: &mut [u64; 64],
    log: &mut [u8],
    db: &mut [u8],
    clog: &mut [u8],
    frames: &[u8],
) -> Result<Head, Unopened>
    ensures { wakes (waking_of h result) rows.new resident.new touched.new log.new db.new clog.new frames.now ≡ opened_lent 4096 lens (lent h rows.old resident.old touched.old) log.old db.old clog.old frames.now }
{
    let mut logged = [[0; 3]; 256];
    let mut full = [[0; 3]; 256];
    let found = test(lens, &*log, &*db, &*clog, frames, &mut logged, &mut full);
    let counts = match found {
        Ok(counts) => counts,
        Err(r) => return Err(opens::stop(r, &*log, lens.log, db, lens.db)),
    };
    let n = replay::lay_images(&*log, lens.log, db, lens.db);
    // The database was tested, so that its page 0 can be read.
    let stored = meta::read_meta(&*db, n).unwrap_or(None);
    let c = clog_by(stored, clog, lens.clog, &logged, counts.logged);
    let l = wal::truncate(log, lens.log).unwrap_or(0);
    lay_rows(rows, stored, &logged, counts.logged, &full, counts.full);
    let left = Lens {
        log: l,
        db: n,
        clog: c,
    };
    Ok(head_by(left, stored, &logged, counts.logged, &full, counts.full))
}
