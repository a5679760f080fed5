// The calls without stores for a host in C or Rust: pages read and written, a transaction put in and handed out, an id or a page allocated, the table told. The store
// stands in the host's own struct, a head of twelve words and three arrays (crate words); the answer is the call's number. A slice is a pointer and a length to
// the host, an array a pointer. Numbers that are handed out by a pointer are written in every case, by 0 where there is nothing to tell.
#![tactic(auto)]

ghost use Rattle.std.specs.Prelude.{◌≡◌, ◌≤◌, length, take};
ghost use Rattle.sorted.specs.Sorted.{laid_on};
ghost use Rattle.world.specs.Calls.{Install, Write};
ghost use Rattle.lent.specs.Lent.{called_lent};
ghost use Rattle.still.specs.Still.{id_allocated, page_allocated, page_read, uninstalled};
ghost use Rattle.quiet.specs.Entries.{entries_in};
ghost use Rattle.still.specs.Entries.{entries_counted, entry_read};
ghost use Rattle.words.specs.Values.{said};
ghost use Rattle.words.specs.Words.{lent_in, standing, standing_of};
ghost use Rattle.hostpages.specs.Hosted.{hosted, hosted_by, itself, id_told, gone, gone_told, entry_values, entry_said, table_told, hosted_table};

use fields::{Refusal, TransactionId, numbers};
use table::Entry;

// ---- pages

pub fn nyotmelang_pager_write_page(
    head: &mut [u64; 12],
    rows: &mut [[u64; 3]; 256],
    resident: &mut [u32; 64],
    touched: &mut [u64; 64],
    page: u32,
    bytes: &[u8; 4096],
    log: &[u8],
    db: &[u8],
    clog: &[u8],
    frames: &mut [u8],
) -> u8
    ensures { standing result head.new rows.new resident.new touched.new log.now db.now clog.now frames.new ≡ standing_of (called_lent 4096 (Write page bytes.now) (lent_in head.old rows.old resident.old touched.old) log.now db.now clog.now frames.old) }
{
    let h = words::head_in(&*head);
    let r = still::write_page(
        h, rows, resident, touched, page, bytes, log, db, clog, frames,
    );
    words::answer(head, r)
}

// A refusal leaves the host's bytes as they are.
pub fn nyotmelang_pager_read_page(
    head: &mut [u64; 12],
    rows: &mut [[u64; 3]; 256],
    resident: &mut [u32; 64],
    touched: &mut [u64; 64],
    page: u32,
    bytes: &mut [u8; 4096],
    log: &[u8],
    db: &[u8],
    clog: &[u8],
    frames: &mut [u8],
) -> u8
    ensures { hosted bytes.new (standing result head.new rows.new resident.new touched.new log.now db.now clog.now frames.new) ≡ hosted_by itself (page_read 4096 page bytes.old (lent_in head.old rows.old resident.old touched.old) log.now db.now clog.now frames.old) }
{
    let h = words::head_in(&*head);
    let r = still::read_page(
        h, rows, resident, touched, page, bytes, log, db, clog, frames,
    );
    words::answer(head, r)
}

// ---- a transaction

pub fn nyotmelang_pager_install(
    head: &mut [u64; 12],
    rows: &mut [[u64; 3]; 256],
    resident: &mut [u32; 64],
    touched: &mut [u64; 64],
    id: u64,
    pages: &[u32],
    log: &[u8],
    db: &[u8],
    clog: &[u8],
    frames: &[u8],
) -> u8
    ensures { standing result head.new rows.new resident.new touched.new log.now db.now clog.now frames.now ≡ standing_of (called_lent 4096 (Install (record { 0 = id }) pages.now) (lent_in head.old rows.old resident.old touched.old) log.now db.now clog.now frames.now) }
{
    let h = words::head_in(&*head);
    let r = still::install(
        h,
        rows,
        resident,
        touched,
        TransactionId(id),
        pages,
        log,
        db,
        clog,
        frames,
    );
    words::answer(head, r)
}

// The values are 1 where a transaction was in, its id, how many pages, 0; or four 0. Its pages go over the front of out, which a refusal leaves as it is.
pub fn nyotmelang_pager_uninstall(
    head: &mut [u64; 12],
    rows: &mut [[u64; 3]; 256],
    resident: &mut [u32; 64],
    touched: &mut [u64; 64],
    out: &mut [u32],
    log: &[u8],
    db: &[u8],
    clog: &[u8],
    frames: &[u8],
    values: &mut [u64; 4],
) -> u8
    ensures { hosted (gone values.new out.new) (standing result head.new rows.new resident.new touched.new log.now db.now clog.now frames.now) ≡ hosted_by gone_told (uninstalled 4096 out.old (lent_in head.old rows.old resident.old touched.old) log.now db.now clog.now frames.now) }
{
    let h = words::head_in(&*head);
    match still::uninstall(h, rows, resident, touched, out, log, db, clog, frames) {
        Ok(x) => {
            let gone = x.0;
            *values = [gone.held, gone.id.0, gone.count as u64, 0];
            words::answer(head, Ok(x.1))
        }
        Err(refusal) => {
            *values = [0; 4];
            words::answer(head, Err(refusal))
        }
    }
}

// ---- an id, a page

pub fn nyotmelang_pager_allocate_id(
    head: &mut [u64; 12],
    rows: &mut [[u64; 3]; 256],
    resident: &mut [u32; 64],
    touched: &mut [u64; 64],
    log: &[u8],
    db: &[u8],
    clog: &[u8],
    frames: &[u8],
    id: &mut u64,
) -> u8
    ensures { hosted id.new (standing result head.new rows.new resident.new touched.new log.now db.now clog.now frames.now) ≡ hosted_by id_told (id_allocated 4096 (lent_in head.old rows.old resident.old touched.old) log.now db.now clog.now frames.now) }
{
    let h = words::head_in(&*head);
    match still::allocate_id(h, rows, resident, touched, log, db, clog, frames) {
        Ok(x) => {
            let next = x.0;
            *id = next.0;
            words::answer(head, Ok(x.1))
        }
        Err(refusal) => {
            *id = 0;
            words::answer(head, Err(refusal))
        }
    }
}

pub fn nyotmelang_pager_allocate_page(
    head: &mut [u64; 12],
    rows: &mut [[u64; 3]; 256],
    resident: &mut [u32; 64],
    touched: &mut [u64; 64],
    log: &[u8],
    db: &[u8],
    clog: &[u8],
    frames: &[u8],
    page: &mut u32,
) -> u8
    ensures { hosted page.new (standing result head.new rows.new resident.new touched.new log.now db.now clog.now frames.now) ≡ hosted_by itself (page_allocated 4096 (lent_in head.old rows.old resident.old touched.old) log.now db.now clog.now frames.now) }
{
    let h = words::head_in(&*head);
    match still::allocate_page(h, rows, resident, touched, log, db, clog, frames) {
        Ok(x) => {
            *page = x.0;
            words::answer(head, Ok(x.1))
        }
        Err(refusal) => {
            *page = 0;
            words::answer(head, Err(refusal))
        }
    }
}

// ---- the table

pub fn nyotmelang_pager_entry_count(
    head: &[u64; 12],
    rows: &[[u64; 3]; 256],
    resident: &[u32; 64],
    touched: &[u64; 64],
    log: &[u8],
    db: &[u8],
    clog: &[u8],
    frames: &[u8],
    entries: &mut usize,
) -> u8
    ensures { record { number = result; entries = entries.new } ≡ entries_counted 4096 (lent_in head.now rows.now resident.now touched.now) log.now db.now clog.now frames.now }
{
    let h = words::head_in(head);
    match still::entry_count(h, rows, resident, touched, log, db, clog, frames) {
        Ok(all) => {
            *entries = all;
            numbers::ACCEPTED
        }
        Err(refusal) => {
            *entries = 0;
            refusal.number()
        }
    }
}

fn values_of(e: Option<Entry>) -> [u64; 4]
    ensures { result ≡ entry_values (entries_in e) }
{
    match e {
        Some(x) => {
            let row = rows::row_of(x.id, x.status);
            [1, row[0], row[1], row[2]]
        }
        None => [0; 4],
    }
}

// The values are 1 and the entry's id, tag and time; or four 0 past the last.
pub fn nyotmelang_pager_entry(
    head: &[u64; 12],
    rows: &[[u64; 3]; 256],
    resident: &[u32; 64],
    touched: &[u64; 64],
    i: usize,
    log: &[u8],
    db: &[u8],
    clog: &[u8],
    frames: &[u8],
    values: &mut [u64; 4],
) -> u8
    ensures { said result values.new ≡ entry_said (entry_read 4096 i (lent_in head.now rows.now resident.now touched.now) log.now db.now clog.now frames.now) }
{
    let h = words::head_in(head);
    match still::entry_at(h, rows, resident, touched, i, log, db, clog, frames) {
        Ok(e) => {
            *values = values_of(e);
            numbers::ACCEPTED
        }
        Err(refusal) => {
            *values = values_of(None);
            refusal.number()
        }
    }
}

// The first n rows over the front of out.
fn hand_out(rows: &[[u64; 3]; 256], n: usize, out: &mut [[u64; 3]])
    requires { n ≤ length out.old }
    ensures { out.new ≡ laid_on out.old (take n rows.now) }
{
    let k = n.min(256);
    fields::copy(out, &rows[..k]);
}

// All rows over the front of out; 13, and nothing stored, where it has too few places.
pub fn nyotmelang_pager_table(
    head: &[u64; 12],
    rows: &[[u64; 3]; 256],
    resident: &[u32; 64],
    touched: &[u64; 64],
    out: &mut [[u64; 3]],
    log: &[u8],
    db: &[u8],
    clog: &[u8],
    frames: &[u8],
    entries: &mut usize,
) -> u8
    ensures { table_told result entries.new out.new ≡ hosted_table 4096 out.old (lent_in head.now rows.now resident.now touched.now) log.now db.now clog.now frames.now }
{
    *entries = 0;
    let h = words::head_in(head);
    let n = match still::entry_count(h, rows, resident, touched, log, db, clog, frames) {
        Ok(n) => n,
        Err(refusal) => return refusal.number(),
    };
    if out.len() < n {
        return Refusal::SliceShort.number();
    }
    hand_out(rows, n, out);
    *entries = n;
    numbers::ACCEPTED
}
