// Exports for C or Rust: opening, and the calls with stores. Each function calls the one of its name in the crate hostcalls, and its clauses are that one's, word for word (.ci/tried holds them
// against each other).
#![tactic(auto)]

ghost use Rattle.std.specs.Prelude.{◌≡◌};
ghost use Rattle.world.specs.Calls.{Begin, Flush, Commit, Rollback, Advance};
ghost use Rattle.lent.specs.Lent.{called_lent};
ghost use Rattle.words.specs.Words.{lent_in, standing, standing_of};
ghost use Rattle.hostcalls.specs.Hosted.{opened, hosted_open};

#[unsafe(no_mangle)]
pub extern "C" fn nyotmelang_pager_open(
    head: &mut [u64; 12],
    rows: &mut [[u64; 3]; 256],
    resident: &mut [u32; 64],
    touched: &mut [u64; 64],
    log_len: usize,
    db_len: usize,
    clog_len: usize,
    log: &mut [u8],
    db: &mut [u8],
    clog: &mut [u8],
    frames: &[u8],
    told: &mut usize,
) -> u8
    ensures { opened told.new (standing result head.new rows.new resident.new touched.new log.exit.now db.new clog.new frames.now) ≡ hosted_open 4096 (record { log = log_len; db = db_len; clog = clog_len }) (lent_in head.old rows.old resident.old touched.old) log.entry.now db.old clog.old frames.now }
{
    hostcalls::nyotmelang_pager_open(
        head, rows, resident, touched, log_len, db_len, clog_len, log, db, clog, frames, told,
    )
}

#[unsafe(no_mangle)]
pub extern "C" fn nyotmelang_pager_begin(
    head: &mut [u64; 12],
    rows: &mut [[u64; 3]; 256],
    resident: &mut [u32; 64],
    touched: &mut [u64; 64],
    id: u64,
    log: &mut [u8],
    db: &mut [u8],
    clog: &mut [u8],
    frames: &mut [u8],
) -> u8
    ensures { standing result head.new rows.new resident.new touched.new log.new db.new clog.new frames.new ≡ standing_of (called_lent 4096 (Begin (record { 0 = id })) (lent_in head.old rows.old resident.old touched.old) log.old db.old clog.old frames.old) }
{
    hostcalls::nyotmelang_pager_begin(head, rows, resident, touched, id, log, db, clog, frames)
}

#[unsafe(no_mangle)]
pub extern "C" fn nyotmelang_pager_flush(
    head: &mut [u64; 12],
    rows: &mut [[u64; 3]; 256],
    resident: &mut [u32; 64],
    touched: &mut [u64; 64],
    page: u32,
    log: &mut [u8],
    db: &mut [u8],
    clog: &mut [u8],
    frames: &mut [u8],
) -> u8
    ensures { standing result head.new rows.new resident.new touched.new log.new db.new clog.new frames.new ≡ standing_of (called_lent 4096 (Flush page) (lent_in head.old rows.old resident.old touched.old) log.old db.old clog.old frames.old) }
{
    hostcalls::nyotmelang_pager_flush(head, rows, resident, touched, page, log, db, clog, frames)
}

#[unsafe(no_mangle)]
pub extern "C" fn nyotmelang_pager_commit(
    head: &mut [u64; 12],
    rows: &mut [[u64; 3]; 256],
    resident: &mut [u32; 64],
    touched: &mut [u64; 64],
    log: &mut [u8],
    db: &mut [u8],
    clog: &mut [u8],
    frames: &mut [u8],
) -> u8
    ensures { standing result head.new rows.new resident.new touched.new log.new db.new clog.new frames.new ≡ standing_of (called_lent 4096 Commit (lent_in head.old rows.old resident.old touched.old) log.old db.old clog.old frames.old) }
{
    hostcalls::nyotmelang_pager_commit(head, rows, resident, touched, log, db, clog, frames)
}

#[unsafe(no_mangle)]
pub extern "C" fn nyotmelang_pager_rollback(
    head: &mut [u64; 12],
    rows: &mut [[u64; 3]; 256],
    resident: &mut [u32; 64],
    touched: &mut [u64; 64],
    list: &[u32],
    log: &mut [u8],
    db: &mut [u8],
    clog: &mut [u8],
    frames: &mut [u8],
) -> u8
    ensures { standing result head.new rows.new resident.new touched.new log.new db.new clog.new frames.new ≡ standing_of (called_lent 4096 (Rollback list.now) (lent_in head.old rows.old resident.old touched.old) log.old db.old clog.old frames.old) }
{
    hostcalls::nyotmelang_pager_rollback(head, rows, resident, touched, list, log, db, clog, frames)
}

#[unsafe(no_mangle)]
pub extern "C" fn nyotmelang_pager_advance(
    head: &mut [u64; 12],
    rows: &mut [[u64; 3]; 256],
    resident: &mut [u32; 64],
    touched: &mut [u64; 64],
    mark: u64,
    log: &mut [u8],
    db: &mut [u8],
    clog: &mut [u8],
    frames: &mut [u8],
) -> u8
    ensures { standing result head.new rows.new resident.new touched.new log.new db.new clog.new frames.new ≡ standing_of (called_lent 4096 (Advance (record { 0 = mark })) (lent_in head.old rows.old resident.old touched.old) log.old db.old clog.old frames.old) }
{
    hostcalls::nyotmelang_pager_advance(head, rows, resident, touched, mark, log, db, clog, frames)
}
