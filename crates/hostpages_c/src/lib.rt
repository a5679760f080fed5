// Exports for C or Rust: the calls without stores: pages, numbers, the table, a transaction put in and taken out. Each function calls the one of its name in the crate hostpages, and its clauses are that one's, word for word (.ci/tried holds them
// against each other).
#![tactic(auto)]

ghost use Rattle.std.specs.Prelude.{◌≡◌};
ghost use Rattle.world.specs.Calls.{Install, Write};
ghost use Rattle.lent.specs.Lent.{called_lent};
ghost use Rattle.still.specs.Still.{id_allocated, page_allocated, page_read, uninstalled};
ghost use Rattle.still.specs.Entries.{entries_counted, entry_read};
ghost use Rattle.words.specs.Values.{said};
ghost use Rattle.words.specs.Words.{lent_in, standing, standing_of};
ghost use Rattle.hostpages.specs.Hosted.{hosted, hosted_by, itself, id_told, gone, gone_told, entry_said, table_told, hosted_table};

#[unsafe(no_mangle)]
pub extern "C" fn nyotmelang_pager_write_page(
    head: &mut [u64; 12],
    rows: &mut [[u64; 3]; 256],
    resident: &mut [u32; 64],
    touched: &mut [u64; 64],
    page: u32,
    bytes: &[u8; 4096],
    log: &[u8],
    db: &[u8],
    clog: &[u8],
    frames: &mut [u8],
) -> u8
    ensures { standing result head.new rows.new resident.new touched.new log.now db.now clog.now frames.new ≡ standing_of (called_lent 4096 (Write page bytes.now) (lent_in head.old rows.old resident.old touched.old) log.now db.now clog.now frames.old) }
{
    hostpages::nyotmelang_pager_write_page(
        head, rows, resident, touched, page, bytes, log, db, clog, frames,
    )
}

#[unsafe(no_mangle)]
pub extern "C" fn nyotmelang_pager_read_page(
    head: &mut [u64; 12],
    rows: &mut [[u64; 3]; 256],
    resident: &mut [u32; 64],
    touched: &mut [u64; 64],
    page: u32,
    bytes: &mut [u8; 4096],
    log: &[u8],
    db: &[u8],
    clog: &[u8],
    frames: &mut [u8],
) -> u8
    ensures { hosted bytes.new (standing result head.new rows.new resident.new touched.new log.now db.now clog.now frames.new) ≡ hosted_by itself (page_read 4096 page bytes.old (lent_in head.old rows.old resident.old touched.old) log.now db.now clog.now frames.old) }
{
    hostpages::nyotmelang_pager_read_page(
        head, rows, resident, touched, page, bytes, log, db, clog, frames,
    )
}

#[unsafe(no_mangle)]
pub extern "C" fn nyotmelang_pager_install(
    head: &mut [u64; 12],
    rows: &mut [[u64; 3]; 256],
    resident: &mut [u32; 64],
    touched: &mut [u64; 64],
    id: u64,
    pages: &[u32],
    log: &[u8],
    db: &[u8],
    clog: &[u8],
    frames: &[u8],
) -> u8
    ensures { standing result head.new rows.new resident.new touched.new log.now db.now clog.now frames.now ≡ standing_of (called_lent 4096 (Install (record { 0 = id }) pages.now) (lent_in head.old rows.old resident.old touched.old) log.now db.now clog.now frames.now) }
{
    hostpages::nyotmelang_pager_install(
        head, rows, resident, touched, id, pages, log, db, clog, frames,
    )
}

#[unsafe(no_mangle)]
pub extern "C" fn nyotmelang_pager_uninstall(
    head: &mut [u64; 12],
    rows: &mut [[u64; 3]; 256],
    resident: &mut [u32; 64],
    touched: &mut [u64; 64],
    out: &mut [u32],
    log: &[u8],
    db: &[u8],
    clog: &[u8],
    frames: &[u8],
    values: &mut [u64; 4],
) -> u8
    ensures { hosted (gone values.new out.new) (standing result head.new rows.new resident.new touched.new log.now db.now clog.now frames.now) ≡ hosted_by gone_told (uninstalled 4096 out.old (lent_in head.old rows.old resident.old touched.old) log.now db.now clog.now frames.now) }
{
    hostpages::nyotmelang_pager_uninstall(
        head, rows, resident, touched, out, log, db, clog, frames, values,
    )
}

#[unsafe(no_mangle)]
pub extern "C" fn nyotmelang_pager_allocate_id(
    head: &mut [u64; 12],
    rows: &mut [[u64; 3]; 256],
    resident: &mut [u32; 64],
    touched: &mut [u64; 64],
    log: &[u8],
    db: &[u8],
    clog: &[u8],
    frames: &[u8],
    id: &mut u64,
) -> u8
    ensures { hosted id.new (standing result head.new rows.new resident.new touched.new log.now db.now clog.now frames.now) ≡ hosted_by id_told (id_allocated 4096 (lent_in head.old rows.old resident.old touched.old) log.now db.now clog.now frames.now) }
{
    hostpages::nyotmelang_pager_allocate_id(
        head, rows, resident, touched, log, db, clog, frames, id,
    )
}

#[unsafe(no_mangle)]
pub extern "C" fn nyotmelang_pager_allocate_page(
    head: &mut [u64; 12],
    rows: &mut [[u64; 3]; 256],
    resident: &mut [u32; 64],
    touched: &mut [u64; 64],
    log: &[u8],
    db: &[u8],
    clog: &[u8],
    frames: &[u8],
    page: &mut u32,
) -> u8
    ensures { hosted page.new (standing result head.new rows.new resident.new touched.new log.now db.now clog.now frames.now) ≡ hosted_by itself (page_allocated 4096 (lent_in head.old rows.old resident.old touched.old) log.now db.now clog.now frames.now) }
{
    hostpages::nyotmelang_pager_allocate_page(
        head, rows, resident, touched, log, db, clog, frames, page,
    )
}

#[unsafe(no_mangle)]
pub extern "C" fn nyotmelang_pager_entry_count(
    head: &[u64; 12],
    rows: &[[u64; 3]; 256],
    resident: &[u32; 64],
    touched: &[u64; 64],
    log: &[u8],
    db: &[u8],
    clog: &[u8],
    frames: &[u8],
    entries: &mut usize,
) -> u8
    ensures { record { number = result; entries = entries.new } ≡ entries_counted 4096 (lent_in head.now rows.now resident.now touched.now) log.now db.now clog.now frames.now }
{
    hostpages::nyotmelang_pager_entry_count(
        head, rows, resident, touched, log, db, clog, frames, entries,
    )
}

#[unsafe(no_mangle)]
pub extern "C" fn nyotmelang_pager_entry(
    head: &[u64; 12],
    rows: &[[u64; 3]; 256],
    resident: &[u32; 64],
    touched: &[u64; 64],
    i: usize,
    log: &[u8],
    db: &[u8],
    clog: &[u8],
    frames: &[u8],
    values: &mut [u64; 4],
) -> u8
    ensures { said result values.new ≡ entry_said (entry_read 4096 i (lent_in head.now rows.now resident.now touched.now) log.now db.now clog.now frames.now) }
{
    hostpages::nyotmelang_pager_entry(
        head, rows, resident, touched, i, log, db, clog, frames, values,
    )
}

#[unsafe(no_mangle)]
pub extern "C" fn nyotmelang_pager_table(
    head: &[u64; 12],
    rows: &[[u64; 3]; 256],
    resident: &[u32; 64],
    touched: &[u64; 64],
    out: &mut [[u64; 3]],
    log: &[u8],
    db: &[u8],
    clog: &[u8],
    frames: &[u8],
    entries: &mut usize,
) -> u8
    ensures { table_told result entries.new out.new ≡ hosted_table 4096 out.old (lent_in head.now rows.now resident.now touched.now) log.now db.now clog.now frames.now }
{
    hostpages::nyotmelang_pager_table(
        head, rows, resident, touched, out, log, db, clog, frames, entries,
    )
}
