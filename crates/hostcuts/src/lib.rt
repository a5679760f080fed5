// The cuts, counts and tellings of the five calls with stores, for a host in C or Rust: the store stands in the host's own struct (crate words). No function here
// changes the store or the frames, and only a cut changes the files. The answer is the call's number. The rest goes into four values, all written every time. Of
// a cut: the lengths of log, database and clog, then 0. Of a count: the number of stores, then 0 0 0. Of a telling: the store's kind (1 append, 2 page, 3 clog,
// 4 truncation), its offset and its length, then 0; where nothing is told 0 0 0 0.
#![tactic(auto)]

ghost use Rattle.std.specs.Prelude.{◌≡◌, [], ◌∷◌};
ghost use Rattle.fields.specs.Refusals.{number_in};
ghost use Rattle.world.specs.Calls.{Begin, Flush, Commit, Rollback, Advance};
ghost use Rattle.stores.specs.Room.{cut};
ghost use Rattle.ready.specs.Ready.{counted, told_by};
ghost use Rattle.acts.specs.Partly.{cut_lent, counted_lent, told_lent};
ghost use Rattle.words.specs.Values.{said};
ghost use Rattle.words.specs.Words.{lent_in};
ghost use Rattle.hostcuts.specs.Cuts.{stopped, lens_given, stopped_at, count_given, told_given};

use fields::{Refusal, TransactionId, numbers};
use stores::Telling;
use world::Lens;

// ---- the answers

fn number_of<T: Copy>(r: Result<T, Refusal>) -> u8
    ensures { result ≡ number_in r }
{
    match r {
        Ok(_) => numbers::ACCEPTED,
        Err(refusal) => refusal.number(),
    }
}

// ---- the values

// No answer needs more than three of the four.
fn give(values: &mut [u64; 4], a: u64, b: u64, c: u64)
    ensures { values.new ≡ a ∷ b ∷ c ∷ 0 ∷ [] }
{
    *values = [a, b, c, 0];
}

// Of a refused call the lengths of before it.
fn give_cut(r: Result<Lens, Refusal>, before: Lens, values: &mut [u64; 4]) -> u8
    ensures { said result values.new ≡ lens_given (cut before r).number (cut before r).lens }
{
    let n = r.unwrap_or(before);
    give(values, n.log as u64, n.db as u64, n.clog as u64);
    number_of(r)
}

fn give_count(r: Result<usize, Refusal>, values: &mut [u64; 4]) -> u8
    ensures { said result values.new ≡ count_given (counted r) }
{
    give(values, r.unwrap_or(0) as u64, 0, 0);
    number_of(r)
}

fn give_told(r: Result<Option<Telling>, Refusal>, values: &mut [u64; 4]) -> u8
    ensures { said result values.new ≡ told_given (told_by r) }
{
    let Some(t) = r.unwrap_or(None) else {
        give(values, 0, 0, 0);
        return number_of(r);
    };
    give(
        values,
        t.kind.number() as u64,
        t.offset as u64,
        t.size as u64,
    );
    number_of(r)
}

// ---- begin

pub fn nyotmelang_pager_begin_to(
    head: &[u64; 12],
    rows: &[[u64; 3]; 256],
    resident: &[u32; 64],
    touched: &[u64; 64],
    id: u64,
    k: usize,
    log: &mut [u8],
    db: &mut [u8],
    clog: &mut [u8],
    frames: &[u8],
    values: &mut [u64; 4],
) -> u8
    ensures { stopped (said result values.new) log.new db.new clog.new ≡ stopped_at (cut_lent 4096 k (Begin (record { 0 = id })) (lent_in head.now rows.now resident.now touched.now) log.old db.old clog.old frames.now) }
{
    let h = words::head_in(head);
    let r = begins::begin_to(
        h,
        rows,
        resident,
        touched,
        TransactionId(id),
        k,
        log,
        db,
        clog,
        frames,
    );
    give_cut(r, h.lens, values)
}

pub fn nyotmelang_pager_begin_count(
    head: &[u64; 12],
    rows: &[[u64; 3]; 256],
    resident: &[u32; 64],
    touched: &[u64; 64],
    id: u64,
    log: &[u8],
    db: &[u8],
    clog: &[u8],
    frames: &[u8],
    values: &mut [u64; 4],
) -> u8
    ensures { said result values.new ≡ count_given (counted_lent 4096 (Begin (record { 0 = id })) (lent_in head.now rows.now resident.now touched.now) log.now db.now clog.now frames.now) }
{
    let h = words::head_in(head);
    let r = begins::begin_count(
        h,
        rows,
        resident,
        touched,
        TransactionId(id),
        log,
        db,
        clog,
        frames,
    );
    give_count(r, values)
}

pub fn nyotmelang_pager_begin_told(
    head: &[u64; 12],
    rows: &[[u64; 3]; 256],
    resident: &[u32; 64],
    touched: &[u64; 64],
    id: u64,
    k: usize,
    log: &[u8],
    db: &[u8],
    clog: &[u8],
    frames: &[u8],
    values: &mut [u64; 4],
) -> u8
    ensures { said result values.new ≡ told_given (told_lent 4096 k (Begin (record { 0 = id })) (lent_in head.now rows.now resident.now touched.now) log.now db.now clog.now frames.now) }
{
    let h = words::head_in(head);
    let r = begins::begin_told(
        h,
        rows,
        resident,
        touched,
        TransactionId(id),
        k,
        log,
        db,
        clog,
        frames,
    );
    give_told(r, values)
}

// ---- flush

pub fn nyotmelang_pager_flush_to(
    head: &[u64; 12],
    rows: &[[u64; 3]; 256],
    resident: &[u32; 64],
    touched: &[u64; 64],
    page: u32,
    k: usize,
    log: &mut [u8],
    db: &mut [u8],
    clog: &mut [u8],
    frames: &[u8],
    values: &mut [u64; 4],
) -> u8
    ensures { stopped (said result values.new) log.new db.new clog.new ≡ stopped_at (cut_lent 4096 k (Flush page) (lent_in head.now rows.now resident.now touched.now) log.old db.old clog.old frames.now) }
{
    let h = words::head_in(head);
    let r = begins::flush_to(h, rows, resident, touched, page, k, log, db, clog, frames);
    give_cut(r, h.lens, values)
}

pub fn nyotmelang_pager_flush_count(
    head: &[u64; 12],
    rows: &[[u64; 3]; 256],
    resident: &[u32; 64],
    touched: &[u64; 64],
    page: u32,
    log: &[u8],
    db: &[u8],
    clog: &[u8],
    frames: &[u8],
    values: &mut [u64; 4],
) -> u8
    ensures { said result values.new ≡ count_given (counted_lent 4096 (Flush page) (lent_in head.now rows.now resident.now touched.now) log.now db.now clog.now frames.now) }
{
    let h = words::head_in(head);
    let r = begins::flush_count(h, rows, resident, touched, page, log, db, clog, frames);
    give_count(r, values)
}

pub fn nyotmelang_pager_flush_told(
    head: &[u64; 12],
    rows: &[[u64; 3]; 256],
    resident: &[u32; 64],
    touched: &[u64; 64],
    page: u32,
    k: usize,
    log: &[u8],
    db: &[u8],
    clog: &[u8],
    frames: &[u8],
    values: &mut [u64; 4],
) -> u8
    ensures { said result values.new ≡ told_given (told_lent 4096 k (Flush page) (lent_in head.now rows.now resident.now touched.now) log.now db.now clog.now frames.now) }
{
    let h = words::head_in(head);
    let r = begins::flush_told(h, rows, resident, touched, page, k, log, db, clog, frames);
    give_told(r, values)
}

// ---- commit

pub fn nyotmelang_pager_commit_to(
    head: &[u64; 12],
    rows: &[[u64; 3]; 256],
    resident: &[u32; 64],
    touched: &[u64; 64],
    k: usize,
    log: &mut [u8],
    db: &mut [u8],
    clog: &mut [u8],
    frames: &[u8],
    values: &mut [u64; 4],
) -> u8
    ensures { stopped (said result values.new) log.new db.new clog.new ≡ stopped_at (cut_lent 4096 k Commit (lent_in head.now rows.now resident.now touched.now) log.old db.old clog.old frames.now) }
{
    let h = words::head_in(head);
    let r = ends::commit_to(h, rows, resident, touched, k, log, db, clog, frames);
    give_cut(r, h.lens, values)
}

pub fn nyotmelang_pager_commit_count(
    head: &[u64; 12],
    rows: &[[u64; 3]; 256],
    resident: &[u32; 64],
    touched: &[u64; 64],
    log: &[u8],
    db: &[u8],
    clog: &[u8],
    frames: &[u8],
    values: &mut [u64; 4],
) -> u8
    ensures { said result values.new ≡ count_given (counted_lent 4096 Commit (lent_in head.now rows.now resident.now touched.now) log.now db.now clog.now frames.now) }
{
    let h = words::head_in(head);
    let r = ends::commit_count(h, rows, resident, touched, log, db, clog, frames);
    give_count(r, values)
}

pub fn nyotmelang_pager_commit_told(
    head: &[u64; 12],
    rows: &[[u64; 3]; 256],
    resident: &[u32; 64],
    touched: &[u64; 64],
    k: usize,
    log: &[u8],
    db: &[u8],
    clog: &[u8],
    frames: &[u8],
    values: &mut [u64; 4],
) -> u8
    ensures { said result values.new ≡ told_given (told_lent 4096 k Commit (lent_in head.now rows.now resident.now touched.now) log.now db.now clog.now frames.now) }
{
    let h = words::head_in(head);
    let r = ends::commit_told(h, rows, resident, touched, k, log, db, clog, frames);
    give_told(r, values)
}

// ---- rollback

pub fn nyotmelang_pager_rollback_to(
    head: &[u64; 12],
    rows: &[[u64; 3]; 256],
    resident: &[u32; 64],
    touched: &[u64; 64],
    list: &[u32],
    k: usize,
    log: &mut [u8],
    db: &mut [u8],
    clog: &mut [u8],
    frames: &[u8],
    values: &mut [u64; 4],
) -> u8
    ensures { stopped (said result values.new) log.new db.new clog.new ≡ stopped_at (cut_lent 4096 k (Rollback list.now) (lent_in head.now rows.now resident.now touched.now) log.old db.old clog.old frames.now) }
{
    let h = words::head_in(head);
    let r = ends::rollback_to(h, rows, resident, touched, list, k, log, db, clog, frames);
    give_cut(r, h.lens, values)
}

pub fn nyotmelang_pager_rollback_count(
    head: &[u64; 12],
    rows: &[[u64; 3]; 256],
    resident: &[u32; 64],
    touched: &[u64; 64],
    list: &[u32],
    log: &[u8],
    db: &[u8],
    clog: &[u8],
    frames: &[u8],
    values: &mut [u64; 4],
) -> u8
    ensures { said result values.new ≡ count_given (counted_lent 4096 (Rollback list.now) (lent_in head.now rows.now resident.now touched.now) log.now db.now clog.now frames.now) }
{
    let h = words::head_in(head);
    let r = ends::rollback_count(h, rows, resident, touched, list, log, db, clog, frames);
    give_count(r, values)
}

pub fn nyotmelang_pager_rollback_told(
    head: &[u64; 12],
    rows: &[[u64; 3]; 256],
    resident: &[u32; 64],
    touched: &[u64; 64],
    list: &[u32],
    k: usize,
    log: &[u8],
    db: &[u8],
    clog: &[u8],
    frames: &[u8],
    values: &mut [u64; 4],
) -> u8
    ensures { said result values.new ≡ told_given (told_lent 4096 k (Rollback list.now) (lent_in head.now rows.now resident.now touched.now) log.now db.now clog.now frames.now) }
{
    let h = words::head_in(head);
    let r = ends::rollback_told(h, rows, resident, touched, list, k, log, db, clog, frames);
    give_told(r, values)
}

// ---- advance

pub fn nyotmelang_pager_advance_to(
    head: &[u64; 12],
    rows: &[[u64; 3]; 256],
    resident: &[u32; 64],
    touched: &[u64; 64],
    mark: u64,
    k: usize,
    log: &mut [u8],
    db: &mut [u8],
    clog: &mut [u8],
    frames: &[u8],
    values: &mut [u64; 4],
) -> u8
    ensures { stopped (said result values.new) log.new db.new clog.new ≡ stopped_at (cut_lent 4096 k (Advance (record { 0 = mark })) (lent_in head.now rows.now resident.now touched.now) log.old db.old clog.old frames.now) }
{
    let h = words::head_in(head);
    let r = ends::advance_to(
        h,
        rows,
        resident,
        touched,
        TransactionId(mark),
        k,
        log,
        db,
        clog,
        frames,
    );
    give_cut(r, h.lens, values)
}

pub fn nyotmelang_pager_advance_count(
    head: &[u64; 12],
    rows: &[[u64; 3]; 256],
    resident: &[u32; 64],
    touched: &[u64; 64],
    mark: u64,
    log: &[u8],
    db: &[u8],
    clog: &[u8],
    frames: &[u8],
    values: &mut [u64; 4],
) -> u8
    ensures { said result values.new ≡ count_given (counted_lent 4096 (Advance (record { 0 = mark })) (lent_in head.now rows.now resident.now touched.now) log.now db.now clog.now frames.now) }
{
    let h = words::head_in(head);
    let r = ends::advance_count(
        h,
        rows,
        resident,
        touched,
        TransactionId(mark),
        log,
        db,
        clog,
        frames,
    );
    give_count(r, values)
}

pub fn nyotmelang_pager_advance_told(
    head: &[u64; 12],
    rows: &[[u64; 3]; 256],
    resident: &[u32; 64],
    touched: &[u64; 64],
    mark: u64,
    k: usize,
    log: &[u8],
    db: &[u8],
    clog: &[u8],
    frames: &[u8],
    values: &mut [u64; 4],
) -> u8
    ensures { said result values.new ≡ told_given (told_lent 4096 k (Advance (record { 0 = mark })) (lent_in head.now rows.now resident.now touched.now) log.now db.now clog.now frames.now) }
{
    let h = words::head_in(head);
    let r = ends::advance_told(
        h,
        rows,
        resident,
        touched,
        TransactionId(mark),
        k,
        log,
        db,
        clog,
        frames,
    );
    give_told(r, values)
}
