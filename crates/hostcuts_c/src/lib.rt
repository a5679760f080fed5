// Exports for C or Rust: the calls with stores, cut, counted and told. Each function calls the one of its name in the crate hostcuts, and its clauses are that one's, word for word (.ci/tried holds them
// against each other).
#![tactic(auto)]

ghost use Rattle.std.specs.Prelude.{◌≡◌};
ghost use Rattle.world.specs.Calls.{Begin, Flush, Commit, Rollback, Advance};
ghost use Rattle.acts.specs.Partly.{cut_lent, counted_lent, told_lent};
ghost use Rattle.words.specs.Values.{said};
ghost use Rattle.words.specs.Words.{lent_in};
ghost use Rattle.hostcuts.specs.Cuts.{stopped, stopped_at, count_given, told_given};

#[unsafe(no_mangle)]
pub extern "C" fn nyotmelang_pager_begin_to(
    head: &[u64; 12],
    rows: &[[u64; 3]; 256],
    resident: &[u32; 64],
    touched: &[u64; 64],
    id: u64,
    k: usize,
    log: &mut [u8],
    db: &mut [u8],
    clog: &mut [u8],
    frames: &[u8],
    values: &mut [u64; 4],
) -> u8
    ensures { stopped (said result values.new) log.new db.new clog.new ≡ stopped_at (cut_lent 4096 k (Begin (record { 0 = id })) (lent_in head.now rows.now resident.now touched.now) log.old db.old clog.old frames.now) }
{
    hostcuts::nyotmelang_pager_begin_to(
        head, rows, resident, touched, id, k, log, db, clog, frames, values,
    )
}

#[unsafe(no_mangle)]
pub extern "C" fn nyotmelang_pager_begin_count(
    head: &[u64; 12],
    rows: &[[u64; 3]; 256],
    resident: &[u32; 64],
    touched: &[u64; 64],
    id: u64,
    log: &[u8],
    db: &[u8],
    clog: &[u8],
    frames: &[u8],
    values: &mut [u64; 4],
) -> u8
    ensures { said result values.new ≡ count_given (counted_lent 4096 (Begin (record { 0 = id })) (lent_in head.now rows.now resident.now touched.now) log.now db.now clog.now frames.now) }
{
    hostcuts::nyotmelang_pager_begin_count(
        head, rows, resident, touched, id, log, db, clog, frames, values,
    )
}

#[unsafe(no_mangle)]
pub extern "C" fn nyotmelang_pager_begin_told(
    head: &[u64; 12],
    rows: &[[u64; 3]; 256],
    resident: &[u32; 64],
    touched: &[u64; 64],
    id: u64,
    k: usize,
    log: &[u8],
    db: &[u8],
    clog: &[u8],
    frames: &[u8],
    values: &mut [u64; 4],
) -> u8
    ensures { said result values.new ≡ told_given (told_lent 4096 k (Begin (record { 0 = id })) (lent_in head.now rows.now resident.now touched.now) log.now db.now clog.now frames.now) }
{
    hostcuts::nyotmelang_pager_begin_told(
        head, rows, resident, touched, id, k, log, db, clog, frames, values,
    )
}

#[unsafe(no_mangle)]
pub extern "C" fn nyotmelang_pager_flush_to(
    head: &[u64; 12],
    rows: &[[u64; 3]; 256],
    resident: &[u32; 64],
    touched: &[u64; 64],
    page: u32,
    k: usize,
    log: &mut [u8],
    db: &mut [u8],
    clog: &mut [u8],
    frames: &[u8],
    values: &mut [u64; 4],
) -> u8
    ensures { stopped (said result values.new) log.new db.new clog.new ≡ stopped_at (cut_lent 4096 k (Flush page) (lent_in head.now rows.now resident.now touched.now) log.old db.old clog.old frames.now) }
{
    hostcuts::nyotmelang_pager_flush_to(
        head, rows, resident, touched, page, k, log, db, clog, frames, values,
    )
}

#[unsafe(no_mangle)]
pub extern "C" fn nyotmelang_pager_flush_count(
    head: &[u64; 12],
    rows: &[[u64; 3]; 256],
    resident: &[u32; 64],
    touched: &[u64; 64],
    page: u32,
    log: &[u8],
    db: &[u8],
    clog: &[u8],
    frames: &[u8],
    values: &mut [u64; 4],
) -> u8
    ensures { said result values.new ≡ count_given (counted_lent 4096 (Flush page) (lent_in head.now rows.now resident.now touched.now) log.now db.now clog.now frames.now) }
{
    hostcuts::nyotmelang_pager_flush_count(
        head, rows, resident, touched, page, log, db, clog, frames, values,
    )
}

#[unsafe(no_mangle)]
pub extern "C" fn nyotmelang_pager_flush_told(
    head: &[u64; 12],
    rows: &[[u64; 3]; 256],
    resident: &[u32; 64],
    touched: &[u64; 64],
    page: u32,
    k: usize,
    log: &[u8],
    db: &[u8],
    clog: &[u8],
    frames: &[u8],
    values: &mut [u64; 4],
) -> u8
    ensures { said result values.new ≡ told_given (told_lent 4096 k (Flush page) (lent_in head.now rows.now resident.now touched.now) log.now db.now clog.now frames.now) }
{
    hostcuts::nyotmelang_pager_flush_told(
        head, rows, resident, touched, page, k, log, db, clog, frames, values,
    )
}

#[unsafe(no_mangle)]
pub extern "C" fn nyotmelang_pager_commit_to(
    head: &[u64; 12],
    rows: &[[u64; 3]; 256],
    resident: &[u32; 64],
    touched: &[u64; 64],
    k: usize,
    log: &mut [u8],
    db: &mut [u8],
    clog: &mut [u8],
    frames: &[u8],
    values: &mut [u64; 4],
) -> u8
    ensures { stopped (said result values.new) log.new db.new clog.new ≡ stopped_at (cut_lent 4096 k Commit (lent_in head.now rows.now resident.now touched.now) log.old db.old clog.old frames.now) }
{
    hostcuts::nyotmelang_pager_commit_to(
        head, rows, resident, touched, k, log, db, clog, frames, values,
    )
}

#[unsafe(no_mangle)]
pub extern "C" fn nyotmelang_pager_commit_count(
    head: &[u64; 12],
    rows: &[[u64; 3]; 256],
    resident: &[u32; 64],
    touched: &[u64; 64],
    log: &[u8],
    db: &[u8],
    clog: &[u8],
    frames: &[u8],
    values: &mut [u64; 4],
) -> u8
    ensures { said result values.new ≡ count_given (counted_lent 4096 Commit (lent_in head.now rows.now resident.now touched.now) log.now db.now clog.now frames.now) }
{
    hostcuts::nyotmelang_pager_commit_count(
        head, rows, resident, touched, log, db, clog, frames, values,
    )
}

#[unsafe(no_mangle)]
pub extern "C" fn nyotmelang_pager_commit_told(
    head: &[u64; 12],
    rows: &[[u64; 3]; 256],
    resident: &[u32; 64],
    touched: &[u64; 64],
    k: usize,
    log: &[u8],
    db: &[u8],
    clog: &[u8],
    frames: &[u8],
    values: &mut [u64; 4],
) -> u8
    ensures { said result values.new ≡ told_given (told_lent 4096 k Commit (lent_in head.now rows.now resident.now touched.now) log.now db.now clog.now frames.now) }
{
    hostcuts::nyotmelang_pager_commit_told(
        head, rows, resident, touched, k, log, db, clog, frames, values,
    )
}

#[unsafe(no_mangle)]
pub extern "C" fn nyotmelang_pager_rollback_to(
    head: &[u64; 12],
    rows: &[[u64; 3]; 256],
    resident: &[u32; 64],
    touched: &[u64; 64],
    list: &[u32],
    k: usize,
    log: &mut [u8],
    db: &mut [u8],
    clog: &mut [u8],
    frames: &[u8],
    values: &mut [u64; 4],
) -> u8
    ensures { stopped (said result values.new) log.new db.new clog.new ≡ stopped_at (cut_lent 4096 k (Rollback list.now) (lent_in head.now rows.now resident.now touched.now) log.old db.old clog.old frames.now) }
{
    hostcuts::nyotmelang_pager_rollback_to(
        head, rows, resident, touched, list, k, log, db, clog, frames, values,
    )
}

#[unsafe(no_mangle)]
pub extern "C" fn nyotmelang_pager_rollback_count(
    head: &[u64; 12],
    rows: &[[u64; 3]; 256],
    resident: &[u32; 64],
    touched: &[u64; 64],
    list: &[u32],
    log: &[u8],
    db: &[u8],
    clog: &[u8],
    frames: &[u8],
    values: &mut [u64; 4],
) -> u8
    ensures { said result values.new ≡ count_given (counted_lent 4096 (Rollback list.now) (lent_in head.now rows.now resident.now touched.now) log.now db.now clog.now frames.now) }
{
    hostcuts::nyotmelang_pager_rollback_count(
        head, rows, resident, touched, list, log, db, clog, frames, values,
    )
}

#[unsafe(no_mangle)]
pub extern "C" fn nyotmelang_pager_rollback_told(
    head: &[u64; 12],
    rows: &[[u64; 3]; 256],
    resident: &[u32; 64],
    touched: &[u64; 64],
    list: &[u32],
    k: usize,
    log: &[u8],
    db: &[u8],
    clog: &[u8],
    frames: &[u8],
    values: &mut [u64; 4],
) -> u8
    ensures { said result values.new ≡ told_given (told_lent 4096 k (Rollback list.now) (lent_in head.now rows.now resident.now touched.now) log.now db.now clog.now frames.now) }
{
    hostcuts::nyotmelang_pager_rollback_told(
        head, rows, resident, touched, list, k, log, db, clog, frames, values,
    )
}

#[unsafe(no_mangle)]
pub extern "C" fn nyotmelang_pager_advance_to(
    head: &[u64; 12],
    rows: &[[u64; 3]; 256],
    resident: &[u32; 64],
    touched: &[u64; 64],
    mark: u64,
    k: usize,
    log: &mut [u8],
    db: &mut [u8],
    clog: &mut [u8],
    frames: &[u8],
    values: &mut [u64; 4],
) -> u8
    ensures { stopped (said result values.new) log.new db.new clog.new ≡ stopped_at (cut_lent 4096 k (Advance (record { 0 = mark })) (lent_in head.now rows.now resident.now touched.now) log.old db.old clog.old frames.now) }
{
    hostcuts::nyotmelang_pager_advance_to(
        head, rows, resident, touched, mark, k, log, db, clog, frames, values,
    )
}

#[unsafe(no_mangle)]
pub extern "C" fn nyotmelang_pager_advance_count(
    head: &[u64; 12],
    rows: &[[u64; 3]; 256],
    resident: &[u32; 64],
    touched: &[u64; 64],
    mark: u64,
    log: &[u8],
    db: &[u8],
    clog: &[u8],
    frames: &[u8],
    values: &mut [u64; 4],
) -> u8
    ensures { said result values.new ≡ count_given (counted_lent 4096 (Advance (record { 0 = mark })) (lent_in head.now rows.now resident.now touched.now) log.now db.now clog.now frames.now) }
{
    hostcuts::nyotmelang_pager_advance_count(
        head, rows, resident, touched, mark, log, db, clog, frames, values,
    )
}

#[unsafe(no_mangle)]
pub extern "C" fn nyotmelang_pager_advance_told(
    head: &[u64; 12],
    rows: &[[u64; 3]; 256],
    resident: &[u32; 64],
    touched: &[u64; 64],
    mark: u64,
    k: usize,
    log: &[u8],
    db: &[u8],
    clog: &[u8],
    frames: &[u8],
    values: &mut [u64; 4],
) -> u8
    ensures { said result values.new ≡ told_given (told_lent 4096 k (Advance (record { 0 = mark })) (lent_in head.now rows.now resident.now touched.now) log.now db.now clog.now frames.now) }
{
    hostcuts::nyotmelang_pager_advance_told(
        head, rows, resident, touched, mark, k, log, db, clog, frames, values,
    )
}
