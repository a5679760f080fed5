// Begin and flush: the calls with stores that leave the frames as they are. Each is made ready, then carried out, cut, counted or told as crate ready does it.
// Every public function is total: its contract is one equation, which says the answer, the store and every byte of the buffers.
#![tactic(auto)]

ghost use Rattle.std.specs.Prelude.{◌≡◌};
ghost use Rattle.world.specs.Calls.{Begin, Flush};
ghost use Rattle.stores.specs.Room.{cut, cut_of};
ghost use Rattle.form.specs.Store.{changed, outcome, called};
ghost use Rattle.ready.specs.Ready.{readied, ready_of, called_to, counted, counted_for, told_by, told_for};
ghost use Rattle.ready.specs.Inside.{ready_for};
ghost use Rattle.calls.specs.Inside.{begun_store, marked_as};

use fields::{Refusal, TransactionId, numbers};
use form::{Held, Store};
use frames::Touched;
use ready::Ready;
use stores::Telling;
use table::{Status, Table};
use world::{Lens, Slot};

// ---- begin

// What a begin leaves: the transaction in, with no page touched yet.
fn with_begun(s: Store, id: TransactionId, table: Table) -> Store
    ensures { result ≡ begun_store s id table }
{
    let held = Held {
        slot: Slot::Installed(id),
        touched: Touched {
            count: 0,
            ..s.held.touched
        },
    };
    Store { table, held, ..s }
}

fn ready_begin(
    s: Store,
    id: TransactionId,
    log: &[u8],
    db: &[u8],
    clog: &[u8],
    frames: &[u8],
) -> Result<Ready, Refusal>
    ensures { readied 4096 (ready_of s result) log.now db.now clog.now frames.now ≡ ready_for 4096 (Begin id) s log.now db.now clog.now frames.now }
{
    form::check_front(s, log, db, clog, frames)?;
    let plan = plans::begin_plan(id);
    stores::check_room(plan, s.lens, log, db, clog, frames)?;
    let table = table::with_status(s.table, id, Status::Active)?;
    Ok(ready::plain_call(plan, with_begun(s, id, table)))
}

// A transaction begins, in the place of any that was in: table, begin record, clog.
pub fn begin(
    s: Store,
    id: TransactionId,
    log: &mut [u8],
    db: &mut [u8],
    clog: &mut [u8],
    frames: &mut [u8],
) -> Result<Store, Refusal>
    ensures { outcome (changed s result) log.new db.new clog.new frames.new ≡ called 4096 (Begin id) s log.old db.old clog.old frames.old }
{
    let r = ready_begin(s, id, &log[..], &db[..], &clog[..], &frames[..])?;
    Ok(ready::carry_out(r, log, db, clog, frames).value)
}

pub fn begin_to(
    s: Store,
    id: TransactionId,
    k: usize,
    log: &mut [u8],
    db: &mut [u8],
    clog: &mut [u8],
    frames: &[u8],
) -> Result<Lens, Refusal>
    ensures { cut_of (cut s.lens result) log.new db.new clog.new ≡ called_to 4096 k (Begin id) s log.old db.old clog.old frames.now }
{
    let r = ready_begin(s, id, &log[..], &db[..], &clog[..], frames)?;
    Ok(ready::cut_at(r, k, log, db, clog, frames).value)
}

pub fn begin_count(
    s: Store,
    id: TransactionId,
    log: &[u8],
    db: &[u8],
    clog: &[u8],
    frames: &[u8],
) -> Result<usize, Refusal>
    ensures { counted result ≡ counted_for 4096 (Begin id) s log.now db.now clog.now frames.now }
{
    let r = ready_begin(s, id, log, db, clog, frames)?;
    Ok(ready::count_of(r).value)
}

pub fn begin_told(
    s: Store,
    id: TransactionId,
    k: usize,
    log: &[u8],
    db: &[u8],
    clog: &[u8],
    frames: &[u8],
) -> Result<Option<Telling>, Refusal>
    ensures { told_by result ≡ told_for 4096 k (Begin id) s log.now db.now clog.now frames.now }
{
    let r = ready_begin(s, id, log, db, clog, frames)?;
    Ok(ready::told_at(r, k).value)
}

// ---- flush

// Inside a transaction a flush only marks its page.
fn marked(s: Store, page: u32) -> Result<Ready, Refusal>
    ensures { ready_of s result ≡ marked_as s page }
{
    let touched = frames::mark(s.held.touched, page)?;
    let held = Held { touched, ..s.held };
    Ok(ready::nothing(numbers::ACCEPTED, Store { held, ..s }))
}

fn ready_flush(
    s: Store,
    page: u32,
    log: &[u8],
    db: &[u8],
    clog: &[u8],
    frames: &[u8],
) -> Result<Ready, Refusal>
    ensures { readied 4096 (ready_of s result) log.now db.now clog.now frames.now ≡ ready_for 4096 (Flush page) s log.now db.now clog.now frames.now }
{
    form::check_front(s, log, db, clog, frames)?;
    if numbers::NO_PAGE <= page {
        return Err(Refusal::BadPage);
    }
    if form::is_installed(s.held.slot) {
        return marked(s, page);
    }
    let Some(at) = frames::find(s.frames, page) else {
        return Ok(ready::nothing(numbers::ACCEPTED, s));
    };
    let plan = plans::flush_plan(page, at);
    stores::check_room(plan, s.lens, log, db, clog, frames)?;
    Ok(ready::plain_call(plan, s))
}

// Inside a transaction the page is marked touched; outside, a resident page is logged, then written.
pub fn flush(
    s: Store,
    page: u32,
    log: &mut [u8],
    db: &mut [u8],
    clog: &mut [u8],
    frames: &mut [u8],
) -> Result<Store, Refusal>
    ensures { outcome (changed s result) log.new db.new clog.new frames.new ≡ called 4096 (Flush page) s log.old db.old clog.old frames.old }
{
    let r = ready_flush(s, page, &log[..], &db[..], &clog[..], &frames[..])?;
    Ok(ready::carry_out(r, log, db, clog, frames).value)
}

pub fn flush_to(
    s: Store,
    page: u32,
    k: usize,
    log: &mut [u8],
    db: &mut [u8],
    clog: &mut [u8],
    frames: &[u8],
) -> Result<Lens, Refusal>
    ensures { cut_of (cut s.lens result) log.new db.new clog.new ≡ called_to 4096 k (Flush page) s log.old db.old clog.old frames.now }
{
    let r = ready_flush(s, page, &log[..], &db[..], &clog[..], frames)?;
    Ok(ready::cut_at(r, k, log, db, clog, frames).value)
}

pub fn flush_count(
    s: Store,
    page: u32,
    log: &[u8],
    db: &[u8],
    clog: &[u8],
    frames: &[u8],
) -> Result<usize, Refusal>
    ensures { counted result ≡ counted_for 4096 (Flush page) s log.now db.now clog.now frames.now }
{
    let r = ready_flush(s, page, log, db, clog, frames)?;
    Ok(ready::count_of(r).value)
}

pub fn flush_told(
    s: Store,
    page: u32,
    k: usize,
    log: &[u8],
    db: &[u8],
    clog: &[u8],
    frames: &[u8],
) -> Result<Option<Telling>, Refusal>
    ensures { told_by result ≡ told_for 4096 k (Flush page) s log.now db.now clog.now frames.now }
{
    let r = ready_flush(s, page, log, db, clog, frames)?;
    Ok(ready::told_at(r, k).value)
}
