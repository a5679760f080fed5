// The calls that have no stores: install, uninstall, allocate an id or a page, read and write a page. Each takes the store, the four buffers and its own arguments,
// tests 1 and 14 first, and hands back the changed store, or why it is refused: a refusal changes neither the store nor a buffer. Every public function is total: its
// contract is one equation with a call of specs, which says the answer, the store and every byte of the buffers. Two more tell the table's entries and change nothing.
#![tactic(auto)]

ghost use Rattle.std.specs.Prelude.{◌≡◌, cond, ◌*◌, replicate};
ghost use Rattle.std.proofs.lemmas.List.Edits.{sets};
ghost use Rattle.fields.specs.Files.{file_of};
ghost use Rattle.frames.specs.Copies.{page_of};
ghost use Rattle.world.specs.Calls.{Write};
ghost use Rattle.fields.specs.Answers.{no_id};
ghost use Rattle.form.specs.Store.{no_held, changed, outcome, called, called_on, with_array, installed, value_in, changed_in, given};
ghost use Rattle.quiet.specs.Handed.{uninstalled, id_allocated, page_allocated, page_read};
ghost use Rattle.quiet.specs.Inside.{seat_told, seat_of};
ghost use Rattle.quiet.specs.Entries.{count_told, entries_counted, entry_told, entry_read};

use fields::{Refusal, TransactionId, numbers};
use form::{Held, Store};
use frames::{Touched, Transaction};
use table::Entry;
use world::Slot;

// A transaction is put in.
pub fn install(
    s: Store,
    x: Transaction,
    log: &[u8],
    db: &[u8],
    clog: &[u8],
    frames: &[u8],
) -> Result<Store, Refusal>
    ensures { outcome (changed s result) log.now db.now clog.now frames.now ≡ called_on 4096 (installed x) (with_array s x.touched) s log.now db.now clog.now frames.now }
{
    form::check_front(s, log, db, clog, frames)?;
    if !frames::touched_formed(x.touched) {
        return Err(Refusal::OutOfForm);
    }
    if form::is_installed(s.held.slot) {
        return Err(Refusal::Occupied);
    }
    let held = Held {
        slot: Slot::Installed(x.id),
        touched: x.touched,
    };
    Ok(Store { held, ..s })
}

// The transaction that was in is handed out, or none. Its pages stay in the array past the count, which is 0 then.
pub fn uninstall(
    s: Store,
    log: &[u8],
    db: &[u8],
    clog: &[u8],
    frames: &[u8],
) -> Result<(Held, Store), Refusal>
    ensures { given (value_in no_held result) (changed_in s result) log.now db.now clog.now frames.now ≡ uninstalled 4096 s log.now db.now clog.now frames.now }
{
    form::check_front(s, log, db, clog, frames)?;
    let none = Touched {
        count: 0,
        ..s.held.touched
    };
    let held = Held {
        slot: Slot::Empty,
        touched: none,
    };
    Ok((s.held, Store { held, ..s }))
}

// The next id, which then goes up by one, stopping at the maximum.
pub fn allocate_id(
    s: Store,
    log: &[u8],
    db: &[u8],
    clog: &[u8],
    frames: &[u8],
) -> Result<(TransactionId, Store), Refusal>
    ensures { given (value_in no_id result) (changed_in s result) log.now db.now clog.now frames.now ≡ id_allocated 4096 s log.now db.now clog.now frames.now }
{
    form::check_front(s, log, db, clog, frames)?;
    let next = table::next_id(s.next);
    Ok((s.next, Store { next, ..s }))
}

// The page count, which then goes up by one.
pub fn allocate_page(
    s: Store,
    log: &[u8],
    db: &[u8],
    clog: &[u8],
    frames: &[u8],
) -> Result<(u32, Store), Refusal>
    ensures { given (value_in 0 result) (changed_in s result) log.now db.now clog.now frames.now ≡ page_allocated 4096 s log.now db.now clog.now frames.now }
{
    form::check_front(s, log, db, clog, frames)?;
    if numbers::NO_PAGE <= s.pages {
        return Err(Refusal::BadPage);
    }
    let pages = s.pages + 1;
    Ok((s.pages, Store { pages, ..s }))
}

// ---- the table's entries

// How many entries the table has.
pub fn entry_count(
    s: Store,
    log: &[u8],
    db: &[u8],
    clog: &[u8],
    frames: &[u8],
) -> Result<usize, Refusal>
    ensures { count_told result ≡ entries_counted 4096 s log.now db.now clog.now frames.now }
{
    form::check_front(s, log, db, clog, frames)?;
    Ok(s.table.count)
}

// The i-th entry by id, from 0.
pub fn entry_at(
    s: Store,
    i: usize,
    log: &[u8],
    db: &[u8],
    clog: &[u8],
    frames: &[u8],
) -> Result<Option<Entry>, Refusal>
    ensures { entry_told result ≡ entry_read 4096 i s log.now db.now clog.now frames.now }
{
    form::check_front(s, log, db, clog, frames)?;
    if s.table.count <= i {
        return Ok(None);
    }
    Ok(Some(s.table.entries[i]))
}

// ---- pages

// A page that is to be read or written: whether it was resident, its slot, and the store with it resident.
#[derive(Clone, Copy)]
pub struct Seat {
    // No Option with the slot beside it: the slot is needed in both cases.
    pub there: bool,
    pub slot: usize,
    pub store: Store,
}

// What reading and writing a page have in common. No byte is changed here: a page that is read is filled from the file, one that is written is not.
fn seat_page(
    s: Store,
    page: u32,
    log: &[u8],
    db: &[u8],
    clog: &[u8],
    frames: &[u8],
) -> Result<Seat, Refusal>
    ensures { seat_told s result ≡ seat_of 4096 page s log.now db.now clog.now frames.now }
{
    form::check_front(s, log, db, clog, frames)?;
    if numbers::NO_PAGE <= page {
        return Err(Refusal::BadPage);
    }
    let seated = frames::seat(s.frames, frames.len(), page)?;
    let pages = s.pages.max(page + 1);
    let store = Store {
        pages,
        frames: seated,
        ..s
    };
    // A new page takes the frame after the others.
    let place = frames::find(s.frames, page);
    let slot = place.unwrap_or(s.frames.count);
    Ok(Seat {
        there: place.is_some(),
        slot,
        store,
    })
}

// The file's page into a frame, unless the page was there.
pub fn fill(frames: &mut [u8], there: bool, slot: usize, db: &[u8], len: usize, page: u32)
    ensures { frames.new ≡ cond there frames.old (sets frames.old (slot * 4096) (page_of 4096 (file_of db.now len) page)) }
{
    if there {
        return;
    }
    frames::fill_frame(frames, slot, db, len, page);
}

// A page is read: its frame is made resident, from the file or zeros, and copied out.
pub fn read_page(
    s: Store,
    page: u32,
    log: &[u8],
    db: &[u8],
    clog: &[u8],
    frames: &mut [u8],
) -> Result<([u8; 4096], Store), Refusal>
    ensures { given (value_in (replicate 4096 0) result) (changed_in s result) log.now db.now clog.now frames.new ≡ page_read 4096 page s log.now db.now clog.now frames.old }
{
    let seat = seat_page(s, page, log, db, clog, &frames[..])?;
    fill(frames, seat.there, seat.slot, db, s.lens.db, page);
    let bytes = frames::frame_of(&frames[..], seat.slot);
    Ok((bytes, seat.store))
}

// A page is written: its frame is made resident, and the bytes stand in it. The frame is not filled from the file first, since every byte is written.
pub fn write_page(
    s: Store,
    page: u32,
    bytes: &[u8; 4096],
    log: &[u8],
    db: &[u8],
    clog: &[u8],
    frames: &mut [u8],
) -> Result<Store, Refusal>
    ensures { outcome (changed s result) log.now db.now clog.now frames.new ≡ called 4096 (Write page bytes.now) s log.now db.now clog.now frames.old }
{
    let seat = seat_page(s, page, log, db, clog, &frames[..])?;
    frames::put_frame(frames, seat.slot, bytes);
    Ok(seat.store)
}
