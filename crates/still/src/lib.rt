// The calls that have no stores, on a store that stands where it is lent: install, uninstall, allocate an id or a page, read and write a page. Each takes the head by
// value, the three arrays, the four buffers and its own arguments, tests 1 and 14 first, and hands back the changed head, or why it is refused: a refusal changes
// neither head nor array nor buffer. Every public function is total: its contract is one equation with a call of specs.
#![tactic(auto)]

ghost use Rattle.std.specs.Prelude.{◌≡◌, false, cond, ◌+◌, ◌*◌, ◌≤◌, ◌<◌, max, length, take};
ghost use Rattle.std.proofs.lemmas.List.Edits.{sets};
ghost use Rattle.fields.specs.Files.{file_of};
ghost use Rattle.sorted.specs.Sorted.{laid_on};
ghost use Rattle.frames.specs.Pages.{any_bad};
ghost use Rattle.frames.specs.Copies.{page_of};
ghost use Rattle.world.specs.Calls.{Install, Write};
ghost use Rattle.fields.specs.Answers.{no_id};
ghost use Rattle.quiet.specs.Entries.{count_told, entry_told};
ghost use Rattle.lent.specs.Lent.{lent, replied, leaving, called_lent};
ghost use Rattle.still.specs.Still.{beside, value_in, replied_in, id_allocated, page_allocated, page_read, no_gone, taken_of, uninstalled};
ghost use Rattle.still.specs.Entries.{entries_counted, entry_read};
ghost use Rattle.still.specs.Inside.{seat_in, seat_lent};

use fields::{Refusal, TransactionId, numbers};
use lent::Head;
use table::Entry;

// ---- transactions

// A transaction is put in: its list of touched pages is laid over the array.
pub fn install(
    h: Head,
    rows: &mut [[u64; 3]; 256],
    resident: &mut [u32; 64],
    touched: &mut [u64; 64],
    id: TransactionId,
    pages: &[u32],
    log: &[u8],
    db: &[u8],
    clog: &[u8],
    frames: &[u8],
) -> Result<Head, Refusal>
    ensures { leaving (replied h result).number (lent (replied h result).head rows.new resident.new touched.new) log.now db.now clog.now frames.now ≡ called_lent 4096 (Install id pages.now) (lent h rows.old resident.old touched.old) log.now db.now clog.now frames.now }
{
    lent::check_front(h, &*rows, &*resident, &*touched, log, db, clog, frames)?;
    if !seats::list_formed(pages) {
        return Err(Refusal::OutOfForm);
    }
    if h.held == 1 {
        return Err(Refusal::Occupied);
    }
    seats::lay(touched, pages);
    Ok(Head {
        held: 1,
        id,
        touched: pages.len(),
        ..h
    })
}

// What an uninstall hands out: 1 and the id of the transaction that was in, or 0 and 0; how many pages it had touched.
#[derive(Clone, Copy)]
pub struct Gone {
    pub held: u64,
    pub id: TransactionId,
    pub count: usize,
}

// The first n touched pages over the front of `out`. Each of them is a page's number, so that it fits.
fn hand_pages(touched: &[u64; 64], n: usize, out: &mut [u32])
    requires { (n ≤ 64) × (n ≤ length out.old) × (any_bad (take n touched.now) ≡ false) }
    ensures { out.new ≡ laid_on out.old (take n touched.now) }
{
    for (i, page) in touched[..n].iter().enumerate() {
        out[i] = *page as u32;
    }
}

// The transaction is handed out, its pages to the front of `out`: they stay in the array past the count, which is 0 then. 13 where `out` is too short.
pub fn uninstall(
    h: Head,
    rows: &mut [[u64; 3]; 256],
    resident: &mut [u32; 64],
    touched: &mut [u64; 64],
    out: &mut [u32],
    log: &[u8],
    db: &[u8],
    clog: &[u8],
    frames: &[u8],
) -> Result<(Gone, Head), Refusal>
    ensures { beside (taken_of (value_in no_gone result) out.new) (leaving (replied_in h result).number (lent (replied_in h result).head rows.new resident.new touched.new) log.now db.now clog.now frames.now) ≡ uninstalled 4096 out.old (lent h rows.old resident.old touched.old) log.now db.now clog.now frames.now }
{
    lent::check_front(h, &*rows, &*resident, &*touched, log, db, clog, frames)?;
    if out.len() < h.touched {
        return Err(Refusal::SliceShort);
    }
    hand_pages(&*touched, h.touched, out);
    let gone = Gone {
        held: h.held,
        id: h.id,
        count: h.touched,
    };
    let head = Head {
        held: 0,
        id: TransactionId(0),
        touched: 0,
        ..h
    };
    Ok((gone, head))
}

// The next id, which then goes up by one, stopping at the maximum.
pub fn allocate_id(
    h: Head,
    rows: &mut [[u64; 3]; 256],
    resident: &mut [u32; 64],
    touched: &mut [u64; 64],
    log: &[u8],
    db: &[u8],
    clog: &[u8],
    frames: &[u8],
) -> Result<(TransactionId, Head), Refusal>
    ensures { beside (value_in no_id result) (leaving (replied_in h result).number (lent (replied_in h result).head rows.new resident.new touched.new) log.now db.now clog.now frames.now) ≡ id_allocated 4096 (lent h rows.old resident.old touched.old) log.now db.now clog.now frames.now }
{
    lent::check_front(h, &*rows, &*resident, &*touched, log, db, clog, frames)?;
    let next = table::next_id(h.next);
    Ok((h.next, Head { next, ..h }))
}

// The page count, which then goes up by one.
pub fn allocate_page(
    h: Head,
    rows: &mut [[u64; 3]; 256],
    resident: &mut [u32; 64],
    touched: &mut [u64; 64],
    log: &[u8],
    db: &[u8],
    clog: &[u8],
    frames: &[u8],
) -> Result<(u32, Head), Refusal>
    ensures { beside (value_in 0 result) (leaving (replied_in h result).number (lent (replied_in h result).head rows.new resident.new touched.new) log.now db.now clog.now frames.now) ≡ page_allocated 4096 (lent h rows.old resident.old touched.old) log.now db.now clog.now frames.now }
{
    lent::check_front(h, &*rows, &*resident, &*touched, log, db, clog, frames)?;
    if 4294967295 <= h.pages {
        return Err(Refusal::BadPage);
    }
    let pages = h.pages + 1;
    Ok((h.pages as u32, Head { pages, ..h }))
}

// ---- the table's entries

// How many entries the table has.
pub fn entry_count(
    h: Head,
    rows: &[[u64; 3]; 256],
    resident: &[u32; 64],
    touched: &[u64; 64],
    log: &[u8],
    db: &[u8],
    clog: &[u8],
    frames: &[u8],
) -> Result<usize, Refusal>
    ensures { count_told result ≡ entries_counted 4096 (lent h rows.now resident.now touched.now) log.now db.now clog.now frames.now }
{
    lent::check_front(h, rows, resident, touched, log, db, clog, frames)?;
    Ok(h.entries)
}

// The i-th entry by id, from 0.
pub fn entry_at(
    h: Head,
    rows: &[[u64; 3]; 256],
    resident: &[u32; 64],
    touched: &[u64; 64],
    i: usize,
    log: &[u8],
    db: &[u8],
    clog: &[u8],
    frames: &[u8],
) -> Result<Option<Entry>, Refusal>
    ensures { entry_told result ≡ entry_read 4096 i (lent h rows.now resident.now touched.now) log.now db.now clog.now frames.now }
{
    lent::check_front(h, rows, resident, touched, log, db, clog, frames)?;
    if h.entries <= i {
        return Ok(None);
    }
    Ok(Some(rows::entry_at(rows, i)))
}

// ---- pages

// A page that is to be read or written: whether it was resident, its slot, and the head with it resident.
#[derive(Clone, Copy)]
pub struct Seat {
    // No Option with the slot beside it: the slot is needed in both cases.
    pub there: bool,
    pub slot: usize,
    pub head: Head,
}

// The page count, raised past a page.
fn raised(pages: u64, page: u32) -> u64
    requires { page < 4294967295 }
    ensures { result ≡ max pages (page + 1) }
{
    pages.max(page as u64 + 1)
}

// What reading and writing a page have in common. No byte is changed here: a page that is read is filled from the file, one that is written is not.
fn seat_page(
    h: Head,
    rows: &[[u64; 3]; 256],
    resident: &mut [u32; 64],
    touched: &[u64; 64],
    page: u32,
    log: &[u8],
    db: &[u8],
    clog: &[u8],
    frames: &[u8],
) -> Result<Seat, Refusal>
    ensures { seat_in h result rows.now resident.new touched.now ≡ seat_lent 4096 page (lent h rows.now resident.old touched.now) log.now db.now clog.now frames.now }
{
    lent::check_front(h, rows, &*resident, touched, log, db, clog, frames)?;
    if numbers::NO_PAGE <= page {
        return Err(Refusal::BadPage);
    }
    let place = seats::find(&*resident, h.resident, page);
    let count = seats::seat(resident, h.resident, frames.len(), page)?;
    let pages = raised(h.pages, page);
    let head = Head {
        pages,
        resident: count,
        ..h
    };
    // A new page takes the frame after the others.
    let slot = place.unwrap_or(h.resident);
    Ok(Seat {
        there: place.is_some(),
        slot,
        head,
    })
}

// The file's page into a frame, unless the page was there.
fn fill(frames: &mut [u8], there: bool, slot: usize, db: &[u8], len: usize, page: u32)
    ensures { frames.new ≡ cond there frames.old (sets frames.old (slot * 4096) (page_of 4096 (file_of db.now len) page)) }
{
    if there {
        return;
    }
    frames::fill_frame(frames, slot, db, len, page);
}

// A page is read: its frame is made resident, from the file or zeros, and copied out.
pub fn read_page(
    h: Head,
    rows: &mut [[u64; 3]; 256],
    resident: &mut [u32; 64],
    touched: &mut [u64; 64],
    page: u32,
    bytes: &mut [u8; 4096],
    log: &[u8],
    db: &[u8],
    clog: &[u8],
    frames: &mut [u8],
) -> Result<Head, Refusal>
    ensures { beside bytes.new (leaving (replied h result).number (lent (replied h result).head rows.new resident.new touched.new) log.now db.now clog.now frames.new) ≡ page_read 4096 page bytes.old (lent h rows.old resident.old touched.old) log.now db.now clog.now frames.old }
{
    let seat = seat_page(
        h,
        &*rows,
        resident,
        &*touched,
        page,
        log,
        db,
        clog,
        &frames[..],
    )?;
    fill(frames, seat.there, seat.slot, db, h.lens.db, page);
    frames::copy_frame(&mut bytes[..], &frames[..], seat.slot);
    Ok(seat.head)
}

// A page is written: its frame is made resident, and the bytes stand in it. The frame is not filled from the file first, since every byte is written.
pub fn write_page(
    h: Head,
    rows: &mut [[u64; 3]; 256],
    resident: &mut [u32; 64],
    touched: &mut [u64; 64],
    page: u32,
    bytes: &[u8; 4096],
    log: &[u8],
    db: &[u8],
    clog: &[u8],
    frames: &mut [u8],
) -> Result<Head, Refusal>
    ensures { leaving (replied h result).number (lent (replied h result).head rows.new resident.new touched.new) log.now db.now clog.now frames.new ≡ called_lent 4096 (Write page bytes.now) (lent h rows.old resident.old touched.old) log.now db.now clog.now frames.old }
{
    let seat = seat_page(
        h,
        &*rows,
        resident,
        &*touched,
        page,
        log,
        db,
        clog,
        &frames[..],
    )?;
    frames::put_frame(frames, seat.slot, bytes);
    Ok(seat.head)
}
