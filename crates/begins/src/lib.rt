// Begin and flush on a store that stands where it is lent: the calls with stores that leave the frames as they are. Each is made ready, then carried out, cut,
// counted or told as crate acts does it. Every public function is total: its contract is one equation, which says the answer, the store where it stands and every
// byte of the buffers. The whole calls match what was made ready, and have no `?`: that would hand it on by value, twice over, which is half of what a flush in a
// transaction costs.
#![tactic(auto)]

ghost use Rattle.std.specs.Prelude.{◌≡◌};
ghost use Rattle.world.specs.Calls.{Begin, Flush};
ghost use Rattle.stores.specs.Room.{cut, cut_of};
ghost use Rattle.lent.specs.Lent.{lent, replied, leaving, called_lent};
ghost use Rattle.ready.specs.Ready.{counted, told_by};
ghost use Rattle.acts.specs.Made.{made_of, made_in};
ghost use Rattle.acts.specs.Partly.{cut_lent, counted_lent, told_lent};
ghost use Rattle.acts.specs.Inside.{ready_lent};
ghost use Rattle.begins.specs.Inside.{begun_head, marked_made};

use acts::{Change, Made};
use fields::{Refusal, TransactionId, numbers};
use lent::Head;
use stores::Telling;
use table::Status;
use world::Lens;

// ---- begin

// What a begin leaves: the transaction in, with no page touched yet.
fn with_begun(h: Head, id: TransactionId) -> Head
    ensures { result ≡ begun_head h id }
{
    Head {
        held: 1,
        id,
        touched: 0,
        ..h
    }
}

fn ready_begin(
    h: Head,
    rows: &[[u64; 3]; 256],
    resident: &[u32; 64],
    touched: &[u64; 64],
    id: TransactionId,
    log: &[u8],
    db: &[u8],
    clog: &[u8],
    frames: &[u8],
) -> Result<Made, Refusal>
    ensures { made_in 4096 (made_of h result) rows.now resident.now touched.now log.now db.now clog.now frames.now ≡ ready_lent 4096 (Begin id) (lent h rows.now resident.now touched.now) log.now db.now clog.now frames.now }
{
    lent::check_front(h, rows, resident, touched, log, db, clog, frames)?;
    let plan = plans::begin_plan(id);
    stores::check_room(plan, h.lens, log, db, clog, frames)?;
    acts::check_table(rows, h.entries, id)?;
    let after = with_begun(h, id);
    Ok(acts::plain_call(plan, Change::Set(id, Status::Active), after))
}

// A transaction begins, in the place of any that was in: table, begin record, clog.
pub fn begin(
    h: Head,
    rows: &mut [[u64; 3]; 256],
    resident: &mut [u32; 64],
    touched: &mut [u64; 64],
    id: TransactionId,
    log: &mut [u8],
    db: &mut [u8],
    clog: &mut [u8],
    frames: &mut [u8],
) -> Result<Head, Refusal>
    ensures { leaving (replied h result).number (lent (replied h result).head rows.new resident.new touched.new) log.new db.new clog.new frames.new ≡ called_lent 4096 (Begin id) (lent h rows.old resident.old touched.old) log.old db.old clog.old frames.old }
{
    match ready_begin(
        h,
        &*rows,
        &*resident,
        &*touched,
        id,
        &log[..],
        &db[..],
        &clog[..],
        &frames[..],
    ) {
        Ok(m) => Ok(acts::carry_out(m, rows, resident, touched, log, db, clog, frames).value),
        Err(r) => Err(r),
    }
}

pub fn begin_to(
    h: Head,
    rows: &[[u64; 3]; 256],
    resident: &[u32; 64],
    touched: &[u64; 64],
    id: TransactionId,
    k: usize,
    log: &mut [u8],
    db: &mut [u8],
    clog: &mut [u8],
    frames: &[u8],
) -> Result<Lens, Refusal>
    ensures { cut_of (cut h.lens result) log.new db.new clog.new ≡ cut_lent 4096 k (Begin id) (lent h rows.now resident.now touched.now) log.old db.old clog.old frames.now }
{
    let m = ready_begin(
        h,
        rows,
        resident,
        touched,
        id,
        &log[..],
        &db[..],
        &clog[..],
        frames,
    )?;
    Ok(acts::cut_at(m, k, log, db, clog, frames).value)
}

pub fn begin_count(
    h: Head,
    rows: &[[u64; 3]; 256],
    resident: &[u32; 64],
    touched: &[u64; 64],
    id: TransactionId,
    log: &[u8],
    db: &[u8],
    clog: &[u8],
    frames: &[u8],
) -> Result<usize, Refusal>
    ensures { counted result ≡ counted_lent 4096 (Begin id) (lent h rows.now resident.now touched.now) log.now db.now clog.now frames.now }
{
    let m = ready_begin(h, rows, resident, touched, id, log, db, clog, frames)?;
    Ok(acts::count_of(m).value)
}

pub fn begin_told(
    h: Head,
    rows: &[[u64; 3]; 256],
    resident: &[u32; 64],
    touched: &[u64; 64],
    id: TransactionId,
    k: usize,
    log: &[u8],
    db: &[u8],
    clog: &[u8],
    frames: &[u8],
) -> Result<Option<Telling>, Refusal>
    ensures { told_by result ≡ told_lent 4096 k (Begin id) (lent h rows.now resident.now touched.now) log.now db.now clog.now frames.now }
{
    let m = ready_begin(h, rows, resident, touched, id, log, db, clog, frames)?;
    Ok(acts::told_at(m, k).value)
}

// ---- flush

// Inside a transaction a flush only marks its page.
fn marked(h: Head, touched: &[u64; 64], page: u32) -> Result<Made, Refusal>
    ensures { made_of h result ≡ marked_made h touched.now page }
{
    seats::check_mark(touched, h.touched, page)?;
    Ok(acts::bare(numbers::ACCEPTED, Change::Touch(page), h))
}

fn ready_flush(
    h: Head,
    rows: &[[u64; 3]; 256],
    resident: &[u32; 64],
    touched: &[u64; 64],
    page: u32,
    log: &[u8],
    db: &[u8],
    clog: &[u8],
    frames: &[u8],
) -> Result<Made, Refusal>
    ensures { made_in 4096 (made_of h result) rows.now resident.now touched.now log.now db.now clog.now frames.now ≡ ready_lent 4096 (Flush page) (lent h rows.now resident.now touched.now) log.now db.now clog.now frames.now }
{
    lent::check_front(h, rows, resident, touched, log, db, clog, frames)?;
    if numbers::NO_PAGE <= page {
        return Err(Refusal::BadPage);
    }
    if h.held == 1 {
        return marked(h, touched, page);
    }
    let Some(slot) = seats::find(resident, h.resident, page) else {
        return Ok(acts::bare(numbers::ACCEPTED, Change::Same, h));
    };
    let plan = plans::flush_plan(page, slot);
    stores::check_room(plan, h.lens, log, db, clog, frames)?;
    Ok(acts::plain_call(plan, Change::Same, h))
}

// Inside a transaction the page is marked touched; outside, a resident page is logged, then written.
pub fn flush(
    h: Head,
    rows: &mut [[u64; 3]; 256],
    resident: &mut [u32; 64],
    touched: &mut [u64; 64],
    page: u32,
    log: &mut [u8],
    db: &mut [u8],
    clog: &mut [u8],
    frames: &mut [u8],
) -> Result<Head, Refusal>
    ensures { leaving (replied h result).number (lent (replied h result).head rows.new resident.new touched.new) log.new db.new clog.new frames.new ≡ called_lent 4096 (Flush page) (lent h rows.old resident.old touched.old) log.old db.old clog.old frames.old }
{
    match ready_flush(
        h,
        &*rows,
        &*resident,
        &*touched,
        page,
        &log[..],
        &db[..],
        &clog[..],
        &frames[..],
    ) {
        Ok(m) => Ok(acts::carry_out(m, rows, resident, touched, log, db, clog, frames).value),
        Err(r) => Err(r),
    }
}

pub fn flush_to(
    h: Head,
    rows: &[[u64; 3]; 256],
    resident: &[u32; 64],
    touched: &[u64; 64],
    page: u32,
    k: usize,
    log: &mut [u8],
    db: &mut [u8],
    clog: &mut [u8],
    frames: &[u8],
) -> Result<Lens, Refusal>
    ensures { cut_of (cut h.lens result) log.new db.new clog.new ≡ cut_lent 4096 k (Flush page) (lent h rows.now resident.now touched.now) log.old db.old clog.old frames.now }
{
    let m = ready_flush(
        h,
        rows,
        resident,
        touched,
        page,
        &log[..],
        &db[..],
        &clog[..],
        frames,
    )?;
    Ok(acts::cut_at(m, k, log, db, clog, frames).value)
}

pub fn flush_count(
    h: Head,
    rows: &[[u64; 3]; 256],
    resident: &[u32; 64],
    touched: &[u64; 64],
    page: u32,
    log: &[u8],
    db: &[u8],
    clog: &[u8],
    frames: &[u8],
) -> Result<usize, Refusal>
    ensures { counted result ≡ counted_lent 4096 (Flush page) (lent h rows.now resident.now touched.now) log.now db.now clog.now frames.now }
{
    let m = ready_flush(h, rows, resident, touched, page, log, db, clog, frames)?;
    Ok(acts::count_of(m).value)
}

pub fn flush_told(
    h: Head,
    rows: &[[u64; 3]; 256],
    resident: &[u32; 64],
    touched: &[u64; 64],
    page: u32,
    k: usize,
    log: &[u8],
    db: &[u8],
    clog: &[u8],
    frames: &[u8],
) -> Result<Option<Telling>, Refusal>
    ensures { told_by result ≡ told_lent 4096 k (Flush page) (lent h rows.now resident.now touched.now) log.now db.now clog.now frames.now }
{
    let m = ready_flush(h, rows, resident, touched, page, log, db, clog, frames)?;
    Ok(acts::told_at(m, k).value)
}
