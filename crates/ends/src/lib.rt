// The calls that end with page 0, on a store that stands where it is lent: advancing the mark, commit and rollback. Each is made ready here, then carried out, cut,
// counted or told as crate acts does it. Every public function is total: its contract is one equation, which says the answer, the store where it stands and every
// byte of the buffers. The whole calls match what was made ready, and have no `?`: that would hand it on by value, twice over, and need the more stack.
#![tactic(auto)]

ghost use Rattle.std.specs.Prelude.{◌≡◌};
ghost use Rattle.seats.specs.Seats.{frames_in};
ghost use Rattle.world.specs.Calls.{Commit, Rollback, Advance};
ghost use Rattle.stores.specs.Room.{cut, cut_of};
ghost use Rattle.settle.specs.Inside.{past, raised_by, slot_for};
ghost use Rattle.lent.specs.Lent.{lent, replied, leaving, called_lent};
ghost use Rattle.ready.specs.Ready.{counted, told_by};
ghost use Rattle.acts.specs.Made.{made_of, made_in};
ghost use Rattle.acts.specs.Partly.{cut_lent, counted_lent, told_lent};
ghost use Rattle.acts.specs.Inside.{ready_lent};
ghost use Rattle.ends.specs.Inside.{counters_in, ended_head, marked_head, ending_of, advance_ending, commit_ending, rollback_ending, sealed_made};

use acts::{Change, Made};
use fields::{CommitTime, Refusal, TransactionId, numbers};
use lent::Head;
use meta::Counters;
use picks::{Picked, Which};
use stores::{Plan, Telling};
use table::Status;
use world::Lens;

// What such a call would do and leave, but for page 0: the head, whether the table refuses the change, the change, the stores, and the pages that get the file's
// bytes back.
#[derive(Clone, Copy)]
pub struct Ending {
    pub head: Head,
    pub full: Result<(), Refusal>,
    pub change: Change,
    pub plan: Plan,
    pub back: Picked,
}

// ---- what these calls have in common

fn counters_of(h: Head) -> Counters
    ensures { result ≡ counters_in h }
{
    let next = h.next;
    let time = h.time;
    let mark = h.mark;
    Counters { next, time, mark }
}

// The slot of a page's frame; of one that is not resident the slot that it would get.
fn slot_for(resident: &[u32; 64], n: usize, page: u32) -> usize
    ensures { result ≡ slot_for page (frames_in resident.now n) }
{
    seats::find(resident, n, page).unwrap_or(n)
}

// A call on a store with the head h, sealed with page 0. The tests stand here in their order, and before any change.
fn seal(
    h: Head,
    x: Ending,
    resident: &[u32; 64],
    log: &[u8],
    db: &[u8],
    clog: &[u8],
    frames: &[u8],
) -> Result<Made, Refusal>
    ensures { made_of h result ≡ sealed_made 4096 h resident.now (ending_of x) log.now db.now clog.now frames.now }
{
    stores::check_room(x.plan, h.lens, log, db, clog, frames)?;
    x.full?;
    seats::check_seat(resident, h.resident, frames.len(), 0)?;
    let slot = slot_for(resident, h.resident, 0);
    // The page count is raised past page 0.
    let pages = x.head.pages.max(1);
    let after = Head { pages, ..x.head };
    Ok(acts::meta_call(x.plan, x.back, slot, x.change, after))
}

// The transaction's place is emptied.
fn with_end(h: Head, pages: u64, time: CommitTime) -> Head
    ensures { result ≡ ended_head h pages time }
{
    Head {
        pages,
        time,
        held: 0,
        id: TransactionId(0),
        touched: 0,
        ..h
    }
}

// ---- advancing the mark

fn with_mark(h: Head, mark: TransactionId) -> Head
    ensures { result ≡ marked_head h mark }
{
    Head { mark, ..h }
}

fn advance_ending(h: Head, mark: TransactionId) -> Ending
    ensures { ending_of result ≡ advance_ending h mark }
{
    let m = counters_of(h);
    let plan = plans::advance_plan(mark, m);
    let head = with_mark(h, mark);
    let back = picks::none();
    Ending {
        head,
        full: Ok(()),
        change: Change::Same,
        plan,
        back,
    }
}

// This one, ready_commit and ready_rollback are not inlined, so that what they need on the stack is given back before the call is carried out.
#[inline(never)]
fn ready_advance(
    h: Head,
    rows: &[[u64; 3]; 256],
    resident: &[u32; 64],
    touched: &[u64; 64],
    mark: TransactionId,
    log: &[u8],
    db: &[u8],
    clog: &[u8],
    frames: &[u8],
) -> Result<Made, Refusal>
    ensures { made_in 4096 (made_of h result) rows.now resident.now touched.now log.now db.now clog.now frames.now ≡ ready_lent 4096 (Advance mark) (lent h rows.now resident.now touched.now) log.now db.now clog.now frames.now }
{
    lent::check_front(h, rows, resident, touched, log, db, clog, frames)?;
    if mark.0 <= h.mark.0 {
        return Ok(acts::bare(numbers::ACCEPTED, Change::Same, h));
    }
    let x = advance_ending(h, mark);
    seal(h, x, resident, log, db, clog, frames)
}

// The frozen mark goes up: the clog's slots under it are cleared, and page 0 is written. A mark that is not above the old one changes nothing.
pub fn advance(
    h: Head,
    rows: &mut [[u64; 3]; 256],
    resident: &mut [u32; 64],
    touched: &mut [u64; 64],
    mark: TransactionId,
    log: &mut [u8],
    db: &mut [u8],
    clog: &mut [u8],
    frames: &mut [u8],
) -> Result<Head, Refusal>
    ensures { leaving (replied h result).number (lent (replied h result).head rows.new resident.new touched.new) log.new db.new clog.new frames.new ≡ called_lent 4096 (Advance mark) (lent h rows.old resident.old touched.old) log.old db.old clog.old frames.old }
{
    match ready_advance(
        h,
        &*rows,
        &*resident,
        &*touched,
        mark,
        &log[..],
        &db[..],
        &clog[..],
        &frames[..],
    ) {
        Ok(m) => Ok(acts::carry_out(m, rows, resident, touched, log, db, clog, frames).value),
        Err(r) => Err(r),
    }
}

pub fn advance_to(
    h: Head,
    rows: &[[u64; 3]; 256],
    resident: &[u32; 64],
    touched: &[u64; 64],
    mark: TransactionId,
    k: usize,
    log: &mut [u8],
    db: &mut [u8],
    clog: &mut [u8],
    frames: &[u8],
) -> Result<Lens, Refusal>
    ensures { cut_of (cut h.lens result) log.new db.new clog.new ≡ cut_lent 4096 k (Advance mark) (lent h rows.now resident.now touched.now) log.old db.old clog.old frames.now }
{
    let m = ready_advance(
        h,
        rows,
        resident,
        touched,
        mark,
        &log[..],
        &db[..],
        &clog[..],
        frames,
    )?;
    Ok(acts::cut_at(m, k, log, db, clog, frames).value)
}

pub fn advance_count(
    h: Head,
    rows: &[[u64; 3]; 256],
    resident: &[u32; 64],
    touched: &[u64; 64],
    mark: TransactionId,
    log: &[u8],
    db: &[u8],
    clog: &[u8],
    frames: &[u8],
) -> Result<usize, Refusal>
    ensures { counted result ≡ counted_lent 4096 (Advance mark) (lent h rows.now resident.now touched.now) log.now db.now clog.now frames.now }
{
    let m = ready_advance(h, rows, resident, touched, mark, log, db, clog, frames)?;
    Ok(acts::count_of(m).value)
}

pub fn advance_told(
    h: Head,
    rows: &[[u64; 3]; 256],
    resident: &[u32; 64],
    touched: &[u64; 64],
    mark: TransactionId,
    k: usize,
    log: &[u8],
    db: &[u8],
    clog: &[u8],
    frames: &[u8],
) -> Result<Option<Telling>, Refusal>
    ensures { told_by result ≡ told_lent 4096 k (Advance mark) (lent h rows.now resident.now touched.now) log.now db.now clog.now frames.now }
{
    let m = ready_advance(h, rows, resident, touched, mark, log, db, clog, frames)?;
    Ok(acts::told_at(m, k).value)
}

// ---- commit

fn commit_ending(
    h: Head,
    rows: &[[u64; 3]; 256],
    resident: &[u32; 64],
    touched: &[u64; 64],
) -> Ending
    ensures { ending_of result ≡ commit_ending h rows.now resident.now touched.now }
{
    let id = h.id;
    let m = counters_of(h);
    let plan = gathers::commit_plan(id, touched, h.touched, resident, h.resident, m);
    let full = acts::check_table(rows, h.entries, id);
    let time = h.time;
    let after = table::next_time(time);
    let head = with_end(h, h.pages, after);
    let back = picks::none();
    Ending {
        head,
        full,
        change: Change::Set(id, Status::Committed(time)),
        plan,
        back,
    }
}

#[inline(never)]
fn ready_commit(
    h: Head,
    rows: &[[u64; 3]; 256],
    resident: &[u32; 64],
    touched: &[u64; 64],
    log: &[u8],
    db: &[u8],
    clog: &[u8],
    frames: &[u8],
) -> Result<Made, Refusal>
    ensures { made_in 4096 (made_of h result) rows.now resident.now touched.now log.now db.now clog.now frames.now ≡ ready_lent 4096 Commit (lent h rows.now resident.now touched.now) log.now db.now clog.now frames.now }
{
    lent::check_front(h, rows, resident, touched, log, db, clog, frames)?;
    if h.held != 1 {
        return Ok(acts::bare(numbers::ACCEPTED, Change::Same, h));
    }
    let x = commit_ending(h, rows, resident, touched);
    seal(h, x, resident, log, db, clog, frames)
}

// The transaction's touched resident pages are logged, then written, and it is Committed at the next commit time; with no transaction there is nothing to do.
pub fn commit(
    h: Head,
    rows: &mut [[u64; 3]; 256],
    resident: &mut [u32; 64],
    touched: &mut [u64; 64],
    log: &mut [u8],
    db: &mut [u8],
    clog: &mut [u8],
    frames: &mut [u8],
) -> Result<Head, Refusal>
    ensures { leaving (replied h result).number (lent (replied h result).head rows.new resident.new touched.new) log.new db.new clog.new frames.new ≡ called_lent 4096 Commit (lent h rows.old resident.old touched.old) log.old db.old clog.old frames.old }
{
    match ready_commit(
        h,
        &*rows,
        &*resident,
        &*touched,
        &log[..],
        &db[..],
        &clog[..],
        &frames[..],
    ) {
        Ok(m) => Ok(acts::carry_out(m, rows, resident, touched, log, db, clog, frames).value),
        Err(r) => Err(r),
    }
}

pub fn commit_to(
    h: Head,
    rows: &[[u64; 3]; 256],
    resident: &[u32; 64],
    touched: &[u64; 64],
    k: usize,
    log: &mut [u8],
    db: &mut [u8],
    clog: &mut [u8],
    frames: &[u8],
) -> Result<Lens, Refusal>
    ensures { cut_of (cut h.lens result) log.new db.new clog.new ≡ cut_lent 4096 k Commit (lent h rows.now resident.now touched.now) log.old db.old clog.old frames.now }
{
    let m = ready_commit(
        h,
        rows,
        resident,
        touched,
        &log[..],
        &db[..],
        &clog[..],
        frames,
    )?;
    Ok(acts::cut_at(m, k, log, db, clog, frames).value)
}

pub fn commit_count(
    h: Head,
    rows: &[[u64; 3]; 256],
    resident: &[u32; 64],
    touched: &[u64; 64],
    log: &[u8],
    db: &[u8],
    clog: &[u8],
    frames: &[u8],
) -> Result<usize, Refusal>
    ensures { counted result ≡ counted_lent 4096 Commit (lent h rows.now resident.now touched.now) log.now db.now clog.now frames.now }
{
    let m = ready_commit(h, rows, resident, touched, log, db, clog, frames)?;
    Ok(acts::count_of(m).value)
}

pub fn commit_told(
    h: Head,
    rows: &[[u64; 3]; 256],
    resident: &[u32; 64],
    touched: &[u64; 64],
    k: usize,
    log: &[u8],
    db: &[u8],
    clog: &[u8],
    frames: &[u8],
) -> Result<Option<Telling>, Refusal>
    ensures { told_by result ≡ told_lent 4096 k Commit (lent h rows.now resident.now touched.now) log.now db.now clog.now frames.now }
{
    let m = ready_commit(h, rows, resident, touched, log, db, clog, frames)?;
    Ok(acts::told_at(m, k).value)
}

// ---- rollback

// A page count past one page more.
fn past_page(n: u64, page: u32) -> u64
    ensures { result ≡ past page n }
{
    if numbers::NO_PAGE <= page {
        return n;
    }
    n.max(page as u64 + 1)
}

// A page that gets the file's bytes back is written like any other: the page count is raised past it.
fn raised(x: Picked, pages: u64) -> u64
    ensures { result ≡ raised_by x pages }
{
    let k = x.n.min(64);
    let mut n = pages;
    for page in &x.pages[..k] {
        n = past_page(n, *page);
    }
    n
}

fn rollback_ending(
    h: Head,
    rows: &[[u64; 3]; 256],
    resident: &[u32; 64],
    touched: &[u64; 64],
    list: &[u32],
) -> Ending
    ensures { ending_of result ≡ rollback_ending list.now h rows.now resident.now touched.now }
{
    let id = h.id;
    let m = counters_of(h);
    let plan = gathers::rollback_plan(id, touched, h.touched, resident, h.resident, list, m);
    let back = gathers::pick_in(
        touched,
        h.touched,
        resident,
        h.resident,
        Which::Catalog,
        list,
    );
    let full = acts::check_table(rows, h.entries, id);
    let pages = raised(back, h.pages);
    let time = h.time;
    let head = with_end(h, pages, time);
    Ending {
        head,
        full,
        change: Change::Set(id, Status::Aborted),
        plan,
        back,
    }
}

#[inline(never)]
fn ready_rollback(
    h: Head,
    rows: &[[u64; 3]; 256],
    resident: &[u32; 64],
    touched: &[u64; 64],
    list: &[u32],
    log: &[u8],
    db: &[u8],
    clog: &[u8],
    frames: &[u8],
) -> Result<Made, Refusal>
    ensures { made_in 4096 (made_of h result) rows.now resident.now touched.now log.now db.now clog.now frames.now ≡ ready_lent 4096 (Rollback list.now) (lent h rows.now resident.now touched.now) log.now db.now clog.now frames.now }
{
    lent::check_front(h, rows, resident, touched, log, db, clog, frames)?;
    if picks::any_bad(list) {
        return Err(Refusal::BadPage);
    }
    if h.held != 1 {
        return Ok(acts::bare(numbers::ACCEPTED, Change::Same, h));
    }
    let x = rollback_ending(h, rows, resident, touched, list);
    seal(h, x, resident, log, db, clog, frames)
}

// The transaction is Aborted. Its touched resident pages are logged and written but for pages 1, 2 and the list's, which get the file's bytes back in their
// frames; with no transaction there is nothing to do.
pub fn rollback(
    h: Head,
    rows: &mut [[u64; 3]; 256],
    resident: &mut [u32; 64],
    touched: &mut [u64; 64],
    list: &[u32],
    log: &mut [u8],
    db: &mut [u8],
    clog: &mut [u8],
    frames: &mut [u8],
) -> Result<Head, Refusal>
    ensures { leaving (replied h result).number (lent (replied h result).head rows.new resident.new touched.new) log.new db.new clog.new frames.new ≡ called_lent 4096 (Rollback list.now) (lent h rows.old resident.old touched.old) log.old db.old clog.old frames.old }
{
    match ready_rollback(
        h,
        &*rows,
        &*resident,
        &*touched,
        list,
        &log[..],
        &db[..],
        &clog[..],
        &frames[..],
    ) {
        Ok(m) => Ok(acts::carry_out(m, rows, resident, touched, log, db, clog, frames).value),
        Err(r) => Err(r),
    }
}

pub fn rollback_to(
    h: Head,
    rows: &[[u64; 3]; 256],
    resident: &[u32; 64],
    touched: &[u64; 64],
    list: &[u32],
    k: usize,
    log: &mut [u8],
    db: &mut [u8],
    clog: &mut [u8],
    frames: &[u8],
) -> Result<Lens, Refusal>
    ensures { cut_of (cut h.lens result) log.new db.new clog.new ≡ cut_lent 4096 k (Rollback list.now) (lent h rows.now resident.now touched.now) log.old db.old clog.old frames.now }
{
    let m = ready_rollback(
        h,
        rows,
        resident,
        touched,
        list,
        &log[..],
        &db[..],
        &clog[..],
        frames,
    )?;
    Ok(acts::cut_at(m, k, log, db, clog, frames).value)
}

pub fn rollback_count(
    h: Head,
    rows: &[[u64; 3]; 256],
    resident: &[u32; 64],
    touched: &[u64; 64],
    list: &[u32],
    log: &[u8],
    db: &[u8],
    clog: &[u8],
    frames: &[u8],
) -> Result<usize, Refusal>
    ensures { counted result ≡ counted_lent 4096 (Rollback list.now) (lent h rows.now resident.now touched.now) log.now db.now clog.now frames.now }
{
    let m = ready_rollback(h, rows, resident, touched, list, log, db, clog, frames)?;
    Ok(acts::count_of(m).value)
}

pub fn rollback_told(
    h: Head,
    rows: &[[u64; 3]; 256],
    resident: &[u32; 64],
    touched: &[u64; 64],
    list: &[u32],
    k: usize,
    log: &[u8],
    db: &[u8],
    clog: &[u8],
    frames: &[u8],
) -> Result<Option<Telling>, Refusal>
    ensures { told_by result ≡ told_lent 4096 k (Rollback list.now) (lent h rows.now resident.now touched.now) log.now db.now clog.now frames.now }
{
    let m = ready_rollback(h, rows, resident, touched, list, log, db, clog, frames)?;
    Ok(acts::told_at(m, k).value)
}
