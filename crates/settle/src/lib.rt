// The calls that end with page 0: advancing the mark, commit and rollback. Each is made ready here, then carried out, cut, counted or told as crate ready does
// it. Every public function is total: its contract is one equation, which says the answer, the store and every byte of the buffers.
#![tactic(auto)]

ghost use Rattle.std.specs.Prelude.{◌≡◌};
ghost use Rattle.world.specs.Calls.{Commit, Rollback, Advance};
ghost use Rattle.table.specs.Entries.{inserted_of};
ghost use Rattle.stores.specs.Room.{cut, cut_of};
ghost use Rattle.form.specs.Store.{changed, outcome, called};
ghost use Rattle.ready.specs.Ready.{readied, ready_of, called_to, counted, counted_for, told_by, told_for};
ghost use Rattle.ready.specs.Inside.{ready_for};
ghost use Rattle.settle.specs.Inside.{counters_of, ended_store, marked_store, past, raised_by, slot_for, sealed_by};

use fields::{CommitTime, Refusal, TransactionId, numbers};
use form::{Held, Store};
use frames::{Frames, Touched};
use meta::Counters;
use picks::{Picked, Which};
use ready::Ready;
use stores::{Plan, Telling};
use table::{Status, Table};
use world::{Lens, Slot};

// ---- what these calls have in common

fn counters_of(s: Store) -> Counters
    ensures { result ≡ counters_of s }
{
    Counters {
        next: s.next,
        time: s.time,
        mark: s.mark,
    }
}

// The slot of a page's frame; of one that is not resident the slot that it would get.
fn slot_for(f: Frames, page: u32) -> usize
    ensures { result ≡ slot_for page f }
{
    frames::find(f, page).unwrap_or(f.count)
}

// A call on the store s that would leave u with this table, but for page 0; the table's refusal is told where its turn is. The tests stand here in their order,
// and before any change.
fn seal(
    s: Store,
    u: Store,
    table: Result<Table, Refusal>,
    plan: Plan,
    back: Picked,
    log: &[u8],
    db: &[u8],
    clog: &[u8],
    frames: &[u8],
) -> Result<Ready, Refusal>
    ensures { ready_of s result ≡ sealed_by 4096 s u (inserted_of s.table table) plan back log.now db.now clog.now frames.now }
{
    stores::check_room(plan, s.lens, log, db, clog, frames)?;
    let table = table?;
    let more = frames::seat(s.frames, frames.len(), 0)?;
    let slot = slot_for(s.frames, 0);
    let after = Store {
        // The page count is raised past page 0.
        pages: u.pages.max(1),
        table,
        frames: more,
        ..u
    };
    Ok(ready::meta_call(plan, back, slot, after))
}

// The transaction's place is emptied.
fn with_end(s: Store, pages: u32, time: CommitTime) -> Store
    ensures { result ≡ ended_store s pages time s.table }
{
    let held = Held {
        slot: Slot::Empty,
        touched: Touched {
            count: 0,
            ..s.held.touched
        },
    };
    Store {
        pages,
        time,
        held,
        ..s
    }
}

// ---- advancing the mark

fn with_mark(s: Store, mark: TransactionId) -> Store
    ensures { result ≡ marked_store s mark }
{
    Store { mark, ..s }
}

fn ready_advance(
    s: Store,
    mark: TransactionId,
    log: &[u8],
    db: &[u8],
    clog: &[u8],
    frames: &[u8],
) -> Result<Ready, Refusal>
    ensures { readied 4096 (ready_of s result) log.now db.now clog.now frames.now ≡ ready_for 4096 (Advance mark) s log.now db.now clog.now frames.now }
{
    form::check_front(s, log, db, clog, frames)?;
    if mark.0 <= s.mark.0 {
        return Ok(ready::nothing(numbers::ACCEPTED, s));
    }
    let plan = plans::advance_plan(mark, counters_of(s));
    let u = with_mark(s, mark);
    let back = picks::none();
    seal(s, u, Ok(s.table), plan, back, log, db, clog, frames)
}

// The frozen mark goes up: the clog's slots under it are cleared, and page 0 is written. A mark that is not above the old one changes nothing.
pub fn advance(
    s: Store,
    mark: TransactionId,
    log: &mut [u8],
    db: &mut [u8],
    clog: &mut [u8],
    frames: &mut [u8],
) -> Result<Store, Refusal>
    ensures { outcome (changed s result) log.new db.new clog.new frames.new ≡ called 4096 (Advance mark) s log.old db.old clog.old frames.old }
{
    let r = ready_advance(s, mark, &log[..], &db[..], &clog[..], &frames[..])?;
    Ok(ready::carry_out(r, log, db, clog, frames).value)
}

pub fn advance_to(
    s: Store,
    mark: TransactionId,
    k: usize,
    log: &mut [u8],
    db: &mut [u8],
    clog: &mut [u8],
    frames: &[u8],
) -> Result<Lens, Refusal>
    ensures { cut_of (cut s.lens result) log.new db.new clog.new ≡ called_to 4096 k (Advance mark) s log.old db.old clog.old frames.now }
{
    let r = ready_advance(s, mark, &log[..], &db[..], &clog[..], frames)?;
    Ok(ready::cut_at(r, k, log, db, clog, frames).value)
}

pub fn advance_count(
    s: Store,
    mark: TransactionId,
    log: &[u8],
    db: &[u8],
    clog: &[u8],
    frames: &[u8],
) -> Result<usize, Refusal>
    ensures { counted result ≡ counted_for 4096 (Advance mark) s log.now db.now clog.now frames.now }
{
    let r = ready_advance(s, mark, log, db, clog, frames)?;
    Ok(ready::count_of(r).value)
}

pub fn advance_told(
    s: Store,
    mark: TransactionId,
    k: usize,
    log: &[u8],
    db: &[u8],
    clog: &[u8],
    frames: &[u8],
) -> Result<Option<Telling>, Refusal>
    ensures { told_by result ≡ told_for 4096 k (Advance mark) s log.now db.now clog.now frames.now }
{
    let r = ready_advance(s, mark, log, db, clog, frames)?;
    Ok(ready::told_at(r, k).value)
}

// ---- commit

fn ready_commit(
    s: Store,
    log: &[u8],
    db: &[u8],
    clog: &[u8],
    frames: &[u8],
) -> Result<Ready, Refusal>
    ensures { readied 4096 (ready_of s result) log.now db.now clog.now frames.now ≡ ready_for 4096 Commit s log.now db.now clog.now frames.now }
{
    form::check_front(s, log, db, clog, frames)?;
    let Slot::Installed(id) = s.held.slot else {
        return Ok(ready::nothing(numbers::ACCEPTED, s));
    };
    let plan = plans::commit_plan(id, s.held.touched, s.frames, counters_of(s));
    let table = table::with_status(s.table, id, Status::Committed(s.time));
    let u = with_end(s, s.pages, table::next_time(s.time));
    let back = picks::none();
    seal(s, u, table, plan, back, log, db, clog, frames)
}

// The transaction's touched resident pages are logged, then written, and it is Committed at the next commit time; with no transaction there is nothing to do.
pub fn commit(
    s: Store,
    log: &mut [u8],
    db: &mut [u8],
    clog: &mut [u8],
    frames: &mut [u8],
) -> Result<Store, Refusal>
    ensures { outcome (changed s result) log.new db.new clog.new frames.new ≡ called 4096 Commit s log.old db.old clog.old frames.old }
{
    let r = ready_commit(s, &log[..], &db[..], &clog[..], &frames[..])?;
    Ok(ready::carry_out(r, log, db, clog, frames).value)
}

pub fn commit_to(
    s: Store,
    k: usize,
    log: &mut [u8],
    db: &mut [u8],
    clog: &mut [u8],
    frames: &[u8],
) -> Result<Lens, Refusal>
    ensures { cut_of (cut s.lens result) log.new db.new clog.new ≡ called_to 4096 k Commit s log.old db.old clog.old frames.now }
{
    let r = ready_commit(s, &log[..], &db[..], &clog[..], frames)?;
    Ok(ready::cut_at(r, k, log, db, clog, frames).value)
}

pub fn commit_count(
    s: Store,
    log: &[u8],
    db: &[u8],
    clog: &[u8],
    frames: &[u8],
) -> Result<usize, Refusal>
    ensures { counted result ≡ counted_for 4096 Commit s log.now db.now clog.now frames.now }
{
    let r = ready_commit(s, log, db, clog, frames)?;
    Ok(ready::count_of(r).value)
}

pub fn commit_told(
    s: Store,
    k: usize,
    log: &[u8],
    db: &[u8],
    clog: &[u8],
    frames: &[u8],
) -> Result<Option<Telling>, Refusal>
    ensures { told_by result ≡ told_for 4096 k Commit s log.now db.now clog.now frames.now }
{
    let r = ready_commit(s, log, db, clog, frames)?;
    Ok(ready::told_at(r, k).value)
}

// ---- rollback

// A page count past one page more.
fn past_page(n: u32, page: u32) -> u32
    ensures { result ≡ past page n }
{
    if numbers::NO_PAGE <= page {
        return n;
    }
    n.max(page + 1)
}

// A page that gets the file's bytes back is written like any other: the page count is raised past it.
fn raised(x: Picked, pages: u32) -> u32
    ensures { result ≡ raised_by x pages }
{
    let k = x.n.min(64);
    let mut n = pages;
    for page in &x.pages[..k] {
        n = past_page(n, *page);
    }
    n
}

fn ready_rollback(
    s: Store,
    list: &[u32],
    log: &[u8],
    db: &[u8],
    clog: &[u8],
    frames: &[u8],
) -> Result<Ready, Refusal>
    ensures { readied 4096 (ready_of s result) log.now db.now clog.now frames.now ≡ ready_for 4096 (Rollback list.now) s log.now db.now clog.now frames.now }
{
    form::check_front(s, log, db, clog, frames)?;
    if picks::any_bad(list) {
        return Err(Refusal::BadPage);
    }
    let Slot::Installed(id) = s.held.slot else {
        return Ok(ready::nothing(numbers::ACCEPTED, s));
    };
    let touched = s.held.touched;
    let plan = plans::rollback_plan(id, touched, s.frames, list, counters_of(s));
    let back = picks::pick(touched, s.frames, Which::Catalog, list);
    let table = table::with_status(s.table, id, Status::Aborted);
    let u = with_end(s, raised(back, s.pages), s.time);
    seal(s, u, table, plan, back, log, db, clog, frames)
}

// The transaction is Aborted. Its touched resident pages are logged and written but for pages 1, 2 and the list's, which get the file's bytes back in their
// frames; with no transaction there is nothing to do.
pub fn rollback(
    s: Store,
    list: &[u32],
    log: &mut [u8],
    db: &mut [u8],
    clog: &mut [u8],
    frames: &mut [u8],
) -> Result<Store, Refusal>
    ensures { outcome (changed s result) log.new db.new clog.new frames.new ≡ called 4096 (Rollback list.now) s log.old db.old clog.old frames.old }
{
    let r = ready_rollback(s, list, &log[..], &db[..], &clog[..], &frames[..])?;
    Ok(ready::carry_out(r, log, db, clog, frames).value)
}

pub fn rollback_to(
    s: Store,
    list: &[u32],
    k: usize,
    log: &mut [u8],
    db: &mut [u8],
    clog: &mut [u8],
    frames: &[u8],
) -> Result<Lens, Refusal>
    ensures { cut_of (cut s.lens result) log.new db.new clog.new ≡ called_to 4096 k (Rollback list.now) s log.old db.old clog.old frames.now }
{
    let r = ready_rollback(s, list, &log[..], &db[..], &clog[..], frames)?;
    Ok(ready::cut_at(r, k, log, db, clog, frames).value)
}

pub fn rollback_count(
    s: Store,
    list: &[u32],
    log: &[u8],
    db: &[u8],
    clog: &[u8],
    frames: &[u8],
) -> Result<usize, Refusal>
    ensures { counted result ≡ counted_for 4096 (Rollback list.now) s log.now db.now clog.now frames.now }
{
    let r = ready_rollback(s, list, log, db, clog, frames)?;
    Ok(ready::count_of(r).value)
}

pub fn rollback_told(
    s: Store,
    list: &[u32],
    k: usize,
    log: &[u8],
    db: &[u8],
    clog: &[u8],
    frames: &[u8],
) -> Result<Option<Telling>, Refusal>
    ensures { told_by result ≡ told_for 4096 k (Rollback list.now) s log.now db.now clog.now frames.now }
{
    let r = ready_rollback(s, list, log, db, clog, frames)?;
    Ok(ready::told_at(r, k).value)
}
