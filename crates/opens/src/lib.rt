// Opening a store: scan, lay the images, clog, table and counters, truncate. What comes out is defined in the crate opening; specs/Inside.antt tells what the
// private functions give. Every test that can refuse with 1, 12 or 4 to 7 stands before the first change.
#![tactic(auto)]

ghost use Rattle.std.specs.Prelude.{◌≡◌, map, false, ◌≤◌, max, length};
ghost use Rattle.std.specs.Result.{result_err};
ghost use Rattle.fields.specs.Files.{file_of, unfit};
ghost use Rattle.table.specs.Entries.{list_of};
ghost use Rattle.clog.specs.Slots.{open_clog, record_all, settled};
ghost use Rattle.world.specs.Refusals.{any_of};
ghost use Rattle.opening.specs.Opening.{past_clog, opened_in, opened_as, opened};
ghost use Rattle.opens.specs.Inside.{Loadable, clog_by, time_by, meta_counters, plain_counters, store_at_rest, store_by};
ghost use Rattle.opens.specs.Stops.{stopped, stopped_by};

use fields::{CommitTime, Refusal, TransactionId, numbers};
use form::{Held, Store};
use meta::Counters;
use opening::Unopened;
use scan::Tables;
use table::Table;
use world::{Lens, Slot};

// The most entries of a table.
const TABLE_LIMIT: usize = 256;

// ---- counters and store

fn later_id(a: TransactionId, b: TransactionId) -> TransactionId
    ensures { result ≡ record { 0 = max a.0 b.0 } }
{
    TransactionId(a.0.max(b.0))
}

fn later_time(a: CommitTime, b: CommitTime) -> CommitTime
    ensures { result ≡ record { 0 = max a.0 b.0 } }
{
    CommitTime(a.0.max(b.0))
}

// One more than the largest time that is still Committed in the log's table, not of all its commit records.
fn log_time(logged: Table) -> CommitTime
    ensures { result ≡ record { 0 = time_by logged } }
{
    table::next_time(table::largest_time(logged))
}

fn meta_counters(m: Counters, logged: Table, full: Table) -> Counters
    ensures { result ≡ meta_counters m logged full }
{
    let above = table::next_id(table::largest_id(full));
    let stored = later_id(m.next, above);
    let next = later_id(TransactionId(1), stored);
    let time = later_time(m.time, log_time(logged));
    Counters {
        next,
        time,
        mark: m.mark,
    }
}

fn plain_counters(logged: Table) -> Counters
    ensures { result ≡ plain_counters logged }
{
    Counters {
        next: TransactionId(1),
        time: log_time(logged),
        mark: TransactionId(0),
    }
}

// No page resident, no transaction in.
fn store_at_rest(lens: Lens, c: Counters, t: Table) -> Store
    requires { lens.db ≤ 16777216 }
    ensures { result ≡ store_at_rest 4096 lens c t }
{
    Store {
        lens,
        pages: (lens.db / numbers::PAGE_SIZE) as u32,
        next: c.next,
        time: c.time,
        mark: c.mark,
        table: t,
        frames: frames::no_frames(),
        held: Held {
            slot: Slot::Empty,
            touched: frames::no_pages(),
        },
    }
}

fn store_by(lens: Lens, stored: Option<Counters>, logged: Table, full: Table) -> Store
    requires { lens.db ≤ 16777216 }
    ensures { result ≡ store_by 4096 lens stored logged full }
{
    match stored {
        Some(m) => store_at_rest(lens, meta_counters(m, logged, full), full),
        None => store_at_rest(lens, plain_counters(logged), logged),
    }
}

// ---- the clog

// Every entry of the table recorded in the clog file, the last one first.
fn record_all(clog: &mut [u8], len: usize, t: Table) -> usize
    requires { (unfit 1048576 (length clog.old) len ≡ false) × (8 ≤ len) × (any_of (map (past_clog (length clog.old)) (list_of t)) ≡ false) }
    ensures { file_of clog.new result ≡ record_all 8 0 (list_of t) (file_of clog.old len) }
{
    let mut n = len;
    for i in (0..t.count.min(TABLE_LIMIT)).rev() {
        let e = t.entries[i];
        n = clog::record(clog, n, e.id, e.status).unwrap_or(0);
    }
    n
}

// The clog opened and loaded, Active become Aborted in the file too, and the log's statuses recorded over it. The table that it loads was read before.
fn load_clog(clog: &mut [u8], len: usize, logged: Table) -> usize
    requires { Loadable (file_of clog.old len) (list_of logged) }
    ensures { file_of clog.new result ≡ record_all 8 0 (list_of logged) (settled 8 (open_clog (file_of clog.old len))) }
{
    let end = clog::open(clog, len).unwrap_or(0);
    let _ = clog::load(clog, end);
    record_all(clog, end, logged)
}

fn clog_by(stored: Option<Counters>, clog: &mut [u8], len: usize, logged: Table) -> usize
    requires { Loadable (file_of clog.old len) (list_of logged) }
    ensures { file_of clog.new result ≡ clog_by stored (list_of logged) (file_of clog.old len) }
{
    match stored {
        Some(_) => load_clog(clog, len, logged),
        None => clog::reset(clog, len).unwrap_or(0),
    }
}

// ---- opening

// The refusal that an opening stops with, if any. A torn record is one like the others, and not the log's end: it has an arm so that a wrong version can say so.
fn refusal_in(found: Result<Tables, Refusal>) -> Option<Refusal>
    ensures { result ≡ result_err found }
{
    match found {
        Ok(_) => None,
        Err(Refusal::Torn) => Some(Refusal::Torn),
        Err(r) => Some(r),
    }
}

// Why a refused opening gives no store. At a bad record of the log the images before it are laid; any other refusal changes no byte. The log's length is end, the
// database's is len.
pub fn stop(r: Refusal, log: &[u8], end: usize, db: &mut [u8], len: usize) -> Unopened
    ensures { stopped result db.new ≡ stopped_by 4096 r (file_of log.now end) (file_of db.old len) }
{
    match r {
        Refusal::Torn => Unopened::Torn(replay::lay_images(log, end, db, len)),
        Refusal::UnknownTag => Unopened::Unknown(replay::lay_images(log, end, db, len)),
        _ => Unopened::Refused(r),
    }
}

pub fn open(
    lens: Lens,
    log: &mut [u8],
    db: &mut [u8],
    clog: &mut [u8],
    frames: &[u8],
) -> Result<Store, Unopened>
    ensures { opened_as (opened_in result) log.new db.new clog.new frames.now ≡ opened 4096 lens log.old db.old clog.old frames.now }
{
    let found = scan::survey(lens, &log[..], &db[..], &clog[..], frames);
    if let Some(r) = refusal_in(found) {
        return Err(stop(r, &log[..], lens.log, db, lens.db));
    }
    // Nothing is refused, so there are tables; the empty ones are not taken.
    let tables = found.unwrap_or(Tables {
        logged: table::empty(),
        full: table::empty(),
    });
    let n = replay::lay_images(&log[..], lens.log, db, lens.db);
    // The database was tested, so that its page 0 can be read.
    let stored = meta::read_meta(&db[..], n).unwrap_or(None);
    let c = clog_by(stored, clog, lens.clog, tables.logged);
    let l = wal::truncate(log, lens.log).unwrap_or(0);
    let left = Lens {
        log: l,
        db: n,
        clog: c,
    };
    Ok(store_by(left, stored, tables.logged, tables.full))
}
