// A call is planned into a small value, and its stores are carried out on the three files one after another, as far as is asked.
// specs/Plans.antt tells which stores a plan has and what they mean. Every public function is total: its contract is one equation.
#![tactic(auto)]

ghost use Rattle.std.specs.Prelude.{◌≡◌, Some, [], ◌∷◌, ◌+◌, ◌-◌, ◌*◌, ◌<◌, ◌≤◌, length, take, drop, get_or};
ghost use Rattle.std.proofs.lemmas.List.Edits.{sets};
ghost use Rattle.fields.specs.Bytes.{part};
ghost use Rattle.fields.specs.Files.{file_of, lay, append};
ghost use Rattle.fields.specs.Refusals.{number_in};
ghost use Rattle.wal.specs.Records.{encode, image};
ghost use Rattle.meta.specs.Page.{meta_page};
ghost use Rattle.frames.specs.Copies.{frame_of};
ghost use Rattle.world.specs.World.{files_of};
ghost use Rattle.world.specs.Steps.{apply, apply_all};
ghost use Rattle.world.specs.Refusals.{or_else};
ghost use Rattle.stores.specs.Plans.{begin_steps, flush_steps, commit_steps, rollback_steps, advance_steps, meta_step, steps_of, meaning, meant};
ghost use Rattle.stores.specs.Room.{form_no, number_for, cut, cut_of, carried};
ghost use Rattle.stores.specs.Inside.{needing, needs_of, cost_of, short_no, Enough, lens, told_by, lens_after, tell_steps};
ghost use Rattle.stores.specs.Told.{kind_number, telling_told, first_told, told_in};

use fields::{CommitTime, Refusal, TransactionId, numbers};
use meta::Counters;
use table::Status;
use world::Lens;

// The most pages of a plan.
const LIMIT: usize = 64;

const IMAGE_TAG: u8 = 1;

// One store. A page's bytes are those of a frame: its page number, and the slot of its frame.
#[derive(Clone, Copy)]
pub enum Step {
    LogImage(u32, usize),
    LogBegin(TransactionId),
    LogCommit(TransactionId, CommitTime),
    LogAbort(TransactionId),
    LogCheckpoint,
    WritePage(u32, usize),
    // Page 0 with these counters.
    WriteMeta(Counters),
    SetSlot(TransactionId, Status),
    Compact(TransactionId),
    Truncate,
}

// Which call.
#[derive(Clone, Copy)]
pub enum Kind {
    Nothing,
    Begin,
    Flush,
    Commit,
    Rollback,
    Advance,
}

// A call, planned: the transaction and its commit time, n pages with the slots of their frames, and the counters that page 0 gets.
#[derive(Clone, Copy)]
pub struct Plan {
    pub kind: Kind,
    pub id: TransactionId,
    pub time: CommitTime,
    pub pages: [u32; 64],
    pub slots: [usize; 64],
    pub n: usize,
    pub meta: Counters,
}

// The room that stores need: bytes appended to the log, the furthest end in database and clog.
#[derive(Clone, Copy)]
struct Needs {
    log: usize,
    db: usize,
    clog: usize,
}

// What a store does to its file. Each kind has a number, by which a host is told it.
#[derive(Clone, Copy, Debug, PartialEq, Eq)]
pub enum StoreKind {
    // A record is appended to the log.
    Append = 1,
    // A page of the database is written.
    Page = 2,
    // A slot of the clog is set, or slots of it are cleared.
    Clog = 3,
    // The log is cut back.
    Truncation = 4,
}

impl StoreKind {
    pub fn number(self) -> u8
        ensures { result ≡ kind_number self }
    {
        self as u8
    }
}

// What is told of a store: its kind, and the place and the number of bytes in its file.
#[derive(Clone, Copy, Debug, PartialEq, Eq)]
pub struct Telling {
    pub kind: StoreKind,
    pub offset: usize,
    pub size: usize,
}

// ---- the stores of a plan

// How many stores a plan has.
pub fn count(plan: Plan) -> usize
    ensures { result ≡ length (steps_of plan) }
{
    let n = plan.n.min(LIMIT);
    let kind = plan.kind;
    match kind {
        Kind::Nothing => 0,
        Kind::Begin => 2,
        Kind::Flush => 2 * n,
        Kind::Commit => 2 * n + 5,
        Kind::Rollback => {
            if n == 0 {
                return 3;
            }
            2 * n + 5
        }
        Kind::Advance => 2,
    }
}

fn begin_at(plan: Plan, k: usize) -> Step
    ensures { result ≡ get_or (begin_steps plan) k Step.Truncate }
{
    let id = plan.id;
    if k == 0 {
        return Step::LogBegin(id);
    }
    if k == 1 {
        return Step::SetSlot(id, Status::Active);
    }
    Step::Truncate
}

fn flush_at(plan: Plan, n: usize, k: usize) -> Step
    requires { n ≤ 64 }
    ensures { result ≡ get_or (flush_steps n plan) k Step.Truncate }
{
    if k < n {
        return Step::LogImage(plan.pages[k], plan.slots[k]);
    }
    if k < 2 * n {
        let j = k - n;
        return Step::WritePage(plan.pages[j], plan.slots[j]);
    }
    Step::Truncate
}

fn commit_at(plan: Plan, n: usize, k: usize) -> Step
    requires { n ≤ 64 }
    ensures { result ≡ get_or (commit_steps n plan) k Step.Truncate }
{
    let id = plan.id;
    let time = plan.time;
    if k < n {
        return Step::LogImage(plan.pages[k], plan.slots[k]);
    }
    if k < n + 1 {
        return Step::LogCommit(id, time);
    }
    if k < 2 * n + 1 {
        let j = k - (n + 1);
        return Step::WritePage(plan.pages[j], plan.slots[j]);
    }
    if k < 2 * n + 2 {
        return Step::SetSlot(id, Status::Committed(time));
    }
    if k < 2 * n + 3 {
        return Step::LogCheckpoint;
    }
    if k < 2 * n + 4 {
        return Step::Truncate;
    }
    meta_then(plan, k - (2 * n + 4))
}

fn rollback_at(plan: Plan, n: usize, k: usize) -> Step
    requires { n ≤ 64 }
    ensures { result ≡ get_or (rollback_steps n plan) k Step.Truncate }
{
    let id = plan.id;
    if k < 1 {
        return Step::LogAbort(id);
    }
    if k < 2 {
        return Step::SetSlot(id, Status::Aborted);
    }
    if n < 1 {
        return meta_then(plan, k - 2);
    }
    if k < n + 2 {
        let i = k - 2;
        return Step::LogImage(plan.pages[i], plan.slots[i]);
    }
    if k < 2 * n + 2 {
        let j = k - (n + 2);
        return Step::WritePage(plan.pages[j], plan.slots[j]);
    }
    if k < 2 * n + 3 {
        return Step::LogCheckpoint;
    }
    if k < 2 * n + 4 {
        return Step::Truncate;
    }
    meta_then(plan, k - (2 * n + 4))
}

fn advance_at(plan: Plan, k: usize) -> Step
    ensures { result ≡ get_or (advance_steps plan) k Step.Truncate }
{
    let m = plan.meta;
    let mark = m.mark;
    if k == 0 {
        return Step::Compact(mark);
    }
    meta_then(plan, k - 1)
}

// The last store of most calls.
fn meta_then(plan: Plan, j: usize) -> Step
    ensures { result ≡ get_or (meta_step plan ∷ []) j Step.Truncate }
{
    let m = plan.meta;
    if j == 0 {
        return Step::WriteMeta(m);
    }
    Step::Truncate
}

// Store k of a plan, from 0 on; the truncation where there is none.
pub fn step_at(plan: Plan, k: usize) -> Step
    ensures { result ≡ get_or (steps_of plan) k Step.Truncate }
{
    let n = plan.n.min(LIMIT);
    let kind = plan.kind;
    match kind {
        Kind::Nothing => Step::Truncate,
        Kind::Begin => begin_at(plan, k),
        Kind::Flush => flush_at(plan, n, k),
        Kind::Commit => commit_at(plan, n, k),
        Kind::Rollback => rollback_at(plan, n, k),
        Kind::Advance => advance_at(plan, k),
    }
}

// ---- one store

// A frame's bytes from `at` on, straight from the frame buffer. A slot that has no whole frame reads as zeros past the buffer's end.
fn lay_frame(b: &mut [u8], at: usize, frames: &[u8], slot: usize)
    ensures { b.new ≡ sets b.old at (part 4096 frames.now (slot * 4096)) }
{
    if slot < frames.len() / numbers::PAGE_SIZE {
        let from = slot * numbers::PAGE_SIZE;
        fields::lay(b, at, &frames[from..from + numbers::PAGE_SIZE]);
        return;
    }
    let bytes = frames::frame_of(frames, slot);
    fields::lay(b, at, &bytes[..]);
}

// Field by field, since a whole record would be a second copy of the page.
fn put_image(log: &mut [u8], len: usize, page: u32, frames: &[u8], slot: usize) -> usize
    requires { len + 4101 ≤ length log.old }
    ensures { file_of log.new result ≡ append (file_of log.old len) (encode (image page (frame_of 4096 frames.now slot))) }
{
    log[len] = IMAGE_TAG;
    fields::put_u32(log, len + 1, page);
    lay_frame(log, len + 5, frames, slot);
    len + 4101
}

// A gap between the length and the page becomes zeros.
fn put_page(db: &mut [u8], len: usize, page: u32, frames: &[u8], slot: usize) -> usize
    ensures { file_of db.new result ≡ lay (file_of db.old len) (page * 4096) (frame_of 4096 frames.now slot) }
{
    let at = page as usize * numbers::PAGE_SIZE;
    fields::zero_fill(db, len, at);
    lay_frame(db, at, frames, slot);
    len.max(at + numbers::PAGE_SIZE)
}

// Page 0 leaves no gap.
fn put_counters(db: &mut [u8], len: usize, m: Counters) -> usize
    ensures { file_of db.new result ≡ lay (file_of db.old len) 0 (meta_page 4096 m.next.0 m.time.0 m.mark.0) }
{
    meta::put_meta(db, 0, m);
    len.max(numbers::PAGE_SIZE)
}

// The lengths in one line, so that a match over the stores has a line for each.
fn lengths(log: usize, db: usize, clog: usize) -> Lens
    ensures { result ≡ lens log db clog }
{
    Lens { log, db, clog }
}

fn apply_step(
    step: Step,
    lens: Lens,
    log: &mut [u8],
    db: &mut [u8],
    clog: &mut [u8],
    frames: &[u8],
) -> Lens
    requires { Enough 4096 (meaning 4096 frames.now step ∷ []) (files_of lens log.old db.old clog.old) }
    ensures { files_of result log.new db.new clog.new ≡ apply 4096 (meaning 4096 frames.now step) (files_of lens log.old db.old clog.old) }
{
    let l = lens.log;
    let d = lens.db;
    let c = lens.clog;
    match step {
        Step::LogImage(page, slot) => lengths(put_image(log, l, page, frames, slot), d, c),
        Step::LogBegin(id) => lengths(wal::append_begin(log, l, id).unwrap_or(0), d, c),
        Step::LogCommit(id, time) => lengths(
            wal::append_commit(log, l, id, time).unwrap_or(0),
            d,
            c,
        ),
        Step::LogAbort(id) => lengths(wal::append_abort(log, l, id).unwrap_or(0), d, c),
        Step::LogCheckpoint => lengths(wal::append_checkpoint(log, l).unwrap_or(0), d, c),
        Step::WritePage(page, slot) => lengths(l, put_page(db, d, page, frames, slot), c),
        Step::WriteMeta(m) => lengths(l, put_counters(db, d, m), c),
        Step::SetSlot(id, status) => lengths(l, d, clog::record(clog, c, id, status).unwrap_or(0)),
        Step::Compact(below) => lengths(l, d, clog::compact(clog, c, below).unwrap_or(0)),
        Step::Truncate => lengths(wal::truncate(log, l).unwrap_or(0), d, c),
    }
}

// ---- the room that stores need

// The needs in one line, for the same reason.
fn needing(log: usize, db: usize, clog: usize) -> Needs
    ensures { result ≡ needing log db clog }
{
    Needs { log, db, clog }
}

fn cost(step: Step) -> Needs
    ensures { result ≡ cost_of 4096 step }
{
    match step {
        Step::LogImage(_, _) => needing(4101, 0, 0),
        Step::LogBegin(_) => needing(9, 0, 0),
        Step::LogCommit(_, _) => needing(17, 0, 0),
        Step::LogAbort(_) => needing(9, 0, 0),
        Step::LogCheckpoint => needing(1, 0, 0),
        Step::WritePage(page, _) => needing(
            0,
            page as usize * numbers::PAGE_SIZE + numbers::PAGE_SIZE,
            0,
        ),
        Step::WriteMeta(_) => needing(0, numbers::PAGE_SIZE, 0),
        Step::SetSlot(id, _) => needing(0, 0, numbers::HEADER + (id.0 / 4) as usize + 1),
        Step::Compact(_) => needing(0, 0, 0),
        Step::Truncate => needing(0, 0, 0),
    }
}

// The needs of a plan's stores from the one at `from` on.
fn needed(plan: Plan, from: usize) -> Needs
    ensures { result ≡ needs_of 4096 (drop from (meant 4096 [] plan)) }
{
    let mut log = 0;
    let mut db: usize = 0;
    let mut clog: usize = 0;
    for i in from..count(plan) {
        let s = step_at(plan, i);
        let w = cost(s);
        log += w.log;
        db = db.max(w.db);
        clog = clog.max(w.clog);
    }
    Needs { log, db, clog }
}

fn check_lens(lens: Lens, log: usize, db: usize, clog: usize) -> Result<(), Refusal>
    ensures { number_in result ≡ form_no lens log db clog }
{
    if fields::is_unfit(numbers::BUFFER_LIMIT, log, lens.log) {
        return Err(Refusal::Unfit);
    }
    if fields::is_unfit(numbers::BUFFER_LIMIT, db, lens.db) {
        return Err(Refusal::Unfit);
    }
    if fields::is_unfit(numbers::CLOG_LIMIT, clog, lens.clog) {
        return Err(Refusal::Unfit);
    }
    if lens.log < numbers::HEADER {
        return Err(Refusal::OutOfForm);
    }
    if lens.clog < numbers::HEADER {
        return Err(Refusal::OutOfForm);
    }
    Ok(())
}

fn check_space(w: Needs, len: usize, log: usize, db: usize, clog: usize) -> Result<(), Refusal>
    requires { len ≤ log }
    ensures { number_in result ≡ short_no w len log db clog }
{
    if log - len < w.log {
        return Err(Refusal::LogFull);
    }
    if db < w.db {
        return Err(Refusal::DatabaseFull);
    }
    if clog < w.clog {
        return Err(Refusal::ClogFull);
    }
    Ok(())
}

fn check_stores(
    plan: Plan,
    from: usize,
    lens: Lens,
    log: usize,
    db: usize,
    clog: usize,
) -> Result<(), Refusal>
    ensures { number_in result ≡ or_else (form_no lens log db clog) (short_no (needs_of 4096 (drop from (meant 4096 [] plan))) lens.log log db clog) }
{
    check_lens(lens, log, db, clog)?;
    let w = needed(plan, from);
    check_space(w, lens.log, log, db, clog)
}

// Whether a plan's stores have room in these files. The frames have no part in it; they are there because the stores are told with their bytes.
pub fn check_room(
    plan: Plan,
    lens: Lens,
    log: &[u8],
    db: &[u8],
    clog: &[u8],
    frames: &[u8],
) -> Result<(), Refusal>
    ensures { number_in result ≡ number_for 4096 (meant 4096 frames.now plan) (files_of lens log.now db.now clog.now) }
{
    check_stores(plan, 0, lens, log.len(), db.len(), clog.len())
}

// ---- several stores

// The stores from the one at `from` on, up to the one at k.
fn carry(
    plan: Plan,
    from: usize,
    k: usize,
    lens: Lens,
    log: &mut [u8],
    db: &mut [u8],
    clog: &mut [u8],
    frames: &[u8],
) -> Lens
    requires { Enough 4096 (drop from (meant 4096 frames.now plan)) (files_of lens log.old db.old clog.old) }
    ensures { files_of result log.new db.new clog.new ≡ apply_all 4096 (take (k - from) (drop from (meant 4096 frames.now plan))) (files_of lens log.old db.old clog.old) }
{
    let mut at = lens;
    for i in from..k.min(count(plan)) {
        let s = step_at(plan, i);
        at = apply_step(s, at, log, db, clog, frames);
    }
    at
}

// A plan's stores from the one at `from` on, up to the one at k, counted from 0; or a refusal with nothing changed.
// The room is that of all the stores from `from` on, whatever k is.
pub fn carry_on(
    plan: Plan,
    from: usize,
    k: usize,
    lens: Lens,
    log: &mut [u8],
    db: &mut [u8],
    clog: &mut [u8],
    frames: &[u8],
) -> Result<Lens, Refusal>
    ensures { cut_of (cut lens result) log.new db.new clog.new ≡ carried 4096 (drop from (meant 4096 frames.now plan)) (k - from) (files_of lens log.old db.old clog.old) }
{
    check_stores(plan, from, lens, log.len(), db.len(), clog.len())?;
    Ok(carry(plan, from, k, lens, log, db, clog, frames))
}

// ---- what is told of a store

// The lengths after a store. The database's has no part in what is told.
fn lens_after(step: Step, lens: Lens) -> Lens
    requires { lens.log ≤ 33554432 }
    ensures { result ≡ lens_after 4096 step lens }
{
    let l = lens.log;
    let d = lens.db;
    let c = lens.clog;
    match step {
        Step::LogImage(_, _) => lengths(l + 4101, d, c),
        Step::LogBegin(_) => lengths(l + 9, d, c),
        Step::LogCommit(_, _) => lengths(l + 17, d, c),
        Step::LogAbort(_) => lengths(l + 9, d, c),
        Step::LogCheckpoint => lengths(l + 1, d, c),
        Step::WritePage(_, _) => lens,
        Step::WriteMeta(_) => lens,
        Step::SetSlot(id, _) => lengths(l, d, c.max(numbers::HEADER + (id.0 / 4) as usize + 1)),
        Step::Compact(_) => lens,
        Step::Truncate => lengths(numbers::HEADER, d, c),
    }
}

fn told_of(step: Step, lens: Lens) -> Telling
    ensures { telling_told (Some result) ≡ first_told (told_by 4096 step lens ∷ []) }
{
    let (kind, offset, size) = match step {
        Step::LogImage(_, _) => (StoreKind::Append, lens.log, 4101),
        Step::LogBegin(_) => (StoreKind::Append, lens.log, 9),
        Step::LogCommit(_, _) => (StoreKind::Append, lens.log, 17),
        Step::LogAbort(_) => (StoreKind::Append, lens.log, 9),
        Step::LogCheckpoint => (StoreKind::Append, lens.log, 1),
        Step::WritePage(page, _) => (StoreKind::Page, page as usize * numbers::PAGE_SIZE, 4096),
        Step::WriteMeta(_) => (StoreKind::Page, 0, 4096),
        Step::SetSlot(id, _) => (StoreKind::Clog, numbers::HEADER + (id.0 / 4) as usize, 1),
        Step::Compact(below) => (StoreKind::Clog, 8, clog::span_below(lens.clog, below)),
        Step::Truncate => (StoreKind::Truncation, 0, 8),
    };
    Telling { kind, offset, size }
}

// The lengths before the store at k.
fn lens_at(plan: Plan, k: usize, lens: Lens) -> Lens
    requires { (k < length (steps_of plan)) × (lens.log ≤ 16777216) }
    ensures { first_told (told_by 4096 (get_or (steps_of plan) k Step.Truncate) result ∷ []) ≡ first_told (drop k (tell_steps 4096 (steps_of plan) lens)) }
{
    let mut at = lens;
    for i in 0..k {
        let s = step_at(plan, i);
        at = lens_after(s, at);
    }
    at
}

// Store k of a plan on files of these lengths, from 1 on: kind, offset, length.
pub fn tell(plan: Plan, k: usize, lens: Lens) -> Option<Telling>
    ensures { telling_told result ≡ told_in 4096 plan k lens }
{
    if numbers::BUFFER_LIMIT < lens.log {
        return None;
    }
    if k == 0 {
        return None;
    }
    let all = count(plan);
    if all < k {
        return None;
    }
    let at = lens_at(plan, k - 1, lens);
    let s = step_at(plan, k - 1);
    Some(told_of(s, at))
}
