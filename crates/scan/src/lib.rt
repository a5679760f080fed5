// What an opening tests before it changes a byte: one pass over the log's records, specs/Scans.antt, then what refuses it, specs/Surveys.antt.
// Every public function is total: its contract is one equation.
#![tactic(auto)]

ghost use Rattle.std.specs.Prelude.{◌≡◌, ◌+◌, ◌/◌, false, length, leb};
ghost use Rattle.fields.specs.Files.{file_of, unfit};
ghost use Rattle.fields.specs.Refusals.{number_in};
ghost use Rattle.table.specs.Entries.{empty_table, bounded};
ghost use Rattle.world.specs.World.{files_of};
ghost use Rattle.opening.specs.Opening.{clog_table};
ghost use Rattle.scan.specs.Scans.{held_of, scanned_of, nothing, scanned, next_of};
ghost use Rattle.scan.specs.Inside.{image_past, held_with, with_image, with_status, with_record, with_read, room_by};
ghost use Rattle.scan.specs.Surveys.{surveyed_of, surveyed};

use fields::{Refusal, TransactionId, numbers};
use table::{Status, Table};
use wal::{Read, WalRecord};
use world::Lens;

// What is found in a log.
#[derive(Clone, Copy)]
pub struct Findings {
    // An image lies past the database's buffer.
    pub images: bool,
    // An id's byte lies past the clog's buffer.
    pub ids: bool,
    // The statuses that are set, unless they are of more than 256 ids.
    pub held: Result<Table, Refusal>,
    // How the log ends: at its last byte, or at a bad record; refused as unfit where the log is not read.
    pub ending: Result<(), Refusal>,
}

// What an opening has read before it changes a byte: the log's table, and the clog's with the log's laid over it.
#[derive(Clone, Copy)]
pub struct Tables {
    pub logged: Table,
    pub full: Table,
}

#[tactic(auto, unfolding(crate::specs::Scans::nothing))]
fn unread(ending: Result<(), Refusal>) -> Findings
    ensures { scanned_of result ≡ nothing (number_in ending) }
{
    Findings {
        images: false,
        ids: false,
        held: Ok(table::empty()),
        ending,
    }
}

// ---- one record

// Whether the image of a page has no room in a database buffer of that size.
#[tactic(auto, unfolding(crate::specs::Inside::image_past))]
fn is_past_db(page: u32, size: usize) -> bool
    ensures { result ≡ image_past 4096 size page }
{
    numbers::NO_PAGE <= page || size < page as usize * numbers::PAGE_SIZE + numbers::PAGE_SIZE
}

// Whether the byte of an id lies past a clog buffer of that size.
fn is_past_clog(id: TransactionId, size: usize) -> bool
    ensures { result ≡ leb size (8 + id.0 / 4) }
{
    size <= numbers::HEADER + (id.0 / 4) as usize
}

// The status set. From the 257th id on nothing is held.
fn hold(h: Result<Table, Refusal>, id: TransactionId, status: Status) -> Result<Table, Refusal>
    ensures { held_of result ≡ held_with 256 (held_of h) (record { id = id; status = status }) }
{
    table::with_status(h?, id, status)
}

#[tactic(auto, unfolding(crate::specs::Inside::with_image))]
fn on_image(s: Findings, db: usize, page: u32) -> Findings
    ensures { scanned_of result ≡ with_image 4096 db page (scanned_of s) }
{
    let images = is_past_db(page, db) || s.images;
    Findings { images, ..s }
}

#[tactic(auto, unfolding(crate::specs::Inside::with_status))]
fn on_status(s: Findings, clog: usize, id: TransactionId, status: Status) -> Findings
    ensures { scanned_of result ≡ with_status clog (record { id = id; status = status }) (scanned_of s) }
{
    let held = hold(s.held, id, status);
    let ids = is_past_clog(id, clog) || s.ids;
    Findings { ids, held, ..s }
}

fn on_record(s: Findings, db: usize, clog: usize, r: WalRecord) -> Findings
    ensures { scanned_of result ≡ with_record 4096 db clog r (scanned_of s) }
{
    match r {
        WalRecord::Image(page, _) => on_image(s, db, page),
        WalRecord::Begin(id) => on_status(s, clog, id, Status::Active),
        WalRecord::Commit(id, time) => on_status(s, clog, id, Status::Committed(time)),
        WalRecord::Abort(id) => on_status(s, clog, id, Status::Aborted),
        WalRecord::Checkpoint => s,
    }
}

fn on_read(s: Findings, db: usize, clog: usize, r: Read) -> Findings
    ensures { scanned_of result ≡ with_read 4096 db clog r (scanned_of s) }
{
    match r {
        Read::Found(found, _) => on_record(s, db, clog, found),
        Read::End => s,
        Read::Torn(_) => Findings {
            ending: Err(Refusal::Torn),
            ..s
        },
        Read::Unknown => Findings {
            ending: Err(Refusal::UnknownTag),
            ..s
        },
        Read::Outside => s,
    }
}

// Where to read next in a log of that length. A bad record ends the reading, so that it is the length.
pub fn next_place(r: Read, len: usize) -> usize
    ensures { result ≡ next_of len r }
{
    match r {
        Read::Found(_, next) => next,
        Read::End => len,
        Read::Torn(_) => len,
        Read::Unknown => len,
        Read::Outside => len,
    }
}

// ---- the whole log

// db and clog are the sizes of those buffers.
pub fn scan(log: &[u8], len: usize, db: usize, clog: usize) -> Findings
    ensures { scanned_of result ≡ scanned 4096 db clog (file_of log.now len) }
{
    if fields::is_unfit(numbers::BUFFER_LIMIT, log.len(), len) {
        return unread(Err(Refusal::Unfit));
    }
    let mut at = wal::start_of(log, len);
    let mut s = unread(Ok(()));
    // No `for`: each turn goes on by what it has read.
    while at < len {
        let r = wal::read_record(log, len, at);
        s = on_read(s, db, clog, r);
        at = next_place(r, len);
    }
    s
}

// ---- what refuses an opening

// 4, 5 and 6, by the sizes of the log's and the clog's buffer.
#[tactic(auto, unfolding(crate::specs::Inside::room_by))]
fn check_room(s: Findings, log: usize, clog: usize) -> Result<(), Refusal>
    ensures { number_in result ≡ room_by (scanned_of s) log clog }
{
    if log < numbers::HEADER {
        return Err(Refusal::LogFull);
    }
    if s.images {
        return Err(Refusal::DatabaseFull);
    }
    if clog < numbers::HEADER || s.ids {
        return Err(Refusal::ClogFull);
    }
    Ok(())
}

// What a valid clog holds, another one nothing; refused where that is more than 256 entries.
fn in_clog(clog: &[u8], len: usize) -> Result<Table, Refusal>
    requires { unfit 1048576 (length clog.now) len ≡ false }
    ensures { held_of result ≡ bounded 256 (empty_table 256) (clog_table (file_of clog.now len)) }
{
    let s = &clog[..len];
    if !fields::begins(b"AEROCLG1", s) {
        return Ok(table::empty());
    }
    clog::read(clog, len)
}

// The log's statuses, Active become Aborted, are laid over what the clog holds.
pub fn survey(
    lens: Lens,
    log: &[u8],
    db: &[u8],
    clog: &[u8],
    frames: &[u8],
) -> Result<Tables, Refusal>
    ensures { surveyed_of result ≡ surveyed 4096 (files_of lens log.now db.now clog.now) frames.now }
{
    if form::buffers_bad(lens, log, db, clog, frames) {
        return Err(Refusal::Unfit);
    }
    meta::check_format(db, lens.db)?;
    let s = scan(log, lens.log, db.len(), clog.len());
    check_room(s, log.len(), clog.len())?;
    let logged = table::settle(s.held?);
    let old = in_clog(clog, lens.clog)?;
    let full = table::overlay(old, logged)?;
    s.ending?;
    Ok(Tables { logged, full })
}
