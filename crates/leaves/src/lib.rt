// The leaf calls for a host in C or Rust: log reader and writer, clog, status pages, the second form of a clog, meta page. A file is a buffer that the host lends and a length. The answer is the call's
// number; the values that come with it go into four numbers of the host, zeros after the last: specs/Leaves.antt says which. A slice is a pointer and a length
// to the host.
#![tactic(auto)]

ghost use Rattle.std.specs.Prelude.{◌≡◌, ℕ, List, [], ◌∷◌, cond, Ok};
ghost use Rattle.std.proofs.lemmas.List.Edits.{sets};
ghost use Rattle.fields.specs.Files.{file_of};
ghost use Rattle.fields.specs.Refusals.{number_of};
ghost use Rattle.fields.specs.Answers.{told};
ghost use Rattle.wal.specs.Records.{image, begin, commit, abort, checkpoint};
ghost use Rattle.wal.specs.Reading.{record_told, read_told, read_in, start_in};
ghost use Rattle.wal.specs.Writing.{appended, truncated};
ghost use Rattle.clog.specs.Calls.{unfit, opened, wiped, compacted, load_outcome, loaded_of, loaded};
ghost use Rattle.meta.specs.Page.{format_no, stored_told, meta_in, meta_page};
ghost use Rattle.rows.specs.Rows.{status_in};
ghost use Rattle.words.specs.Values.{said, four};
ghost use Rattle.xacts.specs.Calls.{written, read_back};
ghost use Rattle.shrunk.specs.Calls.{moved_second, moved_first, compacted_second, loaded_second};
ghost use Rattle.leaves.specs.Leaves.{said_by, meta_said, left, left_by, recorded_tag, recorded_second_tag, handed, handed_by};

use fields::{CommitTime, Refusal, TransactionId, numbers};
use meta::Counters;
use table::{Status, Table};
use wal::{Read, WalRecord};

// ---- the number and the four values

// Every answer goes through here, so that all four are written whatever the call was.
fn put(number: u8, a: u64, b: u64, c: u64, d: u64, values: &mut [u64; 4]) -> u8
    ensures { said result values.new ≡ said number (a ∷ b ∷ c ∷ d ∷ []) }
{
    *values = [a, b, c, d];
    number
}

fn tell(a: Result<usize, Refusal>, values: &mut [u64; 4]) -> u8
    ensures { said result values.new ≡ said_by (told a) }
{
    match a {
        Ok(len) => put(numbers::ACCEPTED, len as u64, 0, 0, 0, values),
        Err(refused) => put(refused.number(), 0, 0, 0, 0, values),
    }
}

fn tell_record(r: WalRecord, next: usize, values: &mut [u64; 4]) -> u8
    ensures { said result values.new ≡ said_by (said 0 (record_told r next)) }
{
    match r {
        WalRecord::Image(page, place) => put(
            numbers::ACCEPTED,
            1,
            page as u64,
            place as u64,
            next as u64,
            values,
        ),
        WalRecord::Begin(id) => put(numbers::ACCEPTED, 2, id.0, next as u64, 0, values),
        WalRecord::Commit(id, time) => put(numbers::ACCEPTED, 3, id.0, time.0, next as u64, values),
        WalRecord::Abort(id) => put(numbers::ACCEPTED, 4, id.0, next as u64, 0, values),
        WalRecord::Checkpoint => put(numbers::ACCEPTED, 5, next as u64, 0, 0, values),
    }
}

fn tell_read(r: Read, values: &mut [u64; 4]) -> u8
    ensures { said result values.new ≡ said_by (read_told r) }
{
    match r {
        Read::Found(found, next) => tell_record(found, next, values),
        Read::End => put(numbers::ACCEPTED, 0, 0, 0, 0, values),
        Read::Torn(missing) => put(Refusal::Torn.number(), missing as u64, 0, 0, 0, values),
        Read::Unknown => put(Refusal::UnknownTag.number(), 0, 0, 0, 0, values),
        Read::Outside => put(Refusal::Unfit.number(), 0, 0, 0, 0, values),
    }
}

fn tell_counters(stored: Option<Counters>, values: &mut [u64; 4]) -> u8
    ensures { said result values.new ≡ meta_said (stored_told (Ok stored)) }
{
    match stored {
        Some(m) => put(numbers::ACCEPTED, m.next.0, m.time.0, m.mark.0, 1, values),
        None => put(numbers::ACCEPTED, 0, 0, 0, 0, values),
    }
}

fn tell_stored(s: Result<Option<Counters>, Refusal>, values: &mut [u64; 4]) -> u8
    ensures { said result values.new ≡ meta_said (stored_told s) }
{
    match s {
        Ok(stored) => tell_counters(stored, values),
        Err(refusal) => put(refusal.number(), 0, 0, 0, 0, values),
    }
}

// ---- the log

pub fn nyotmelang_log_start(log: &[u8], len: usize) -> usize
    ensures { result ≡ start_in (file_of log.now len) }
{
    wal::start_of(log, len)
}

pub fn nyotmelang_log_read(log: &[u8], len: usize, at: usize, values: &mut [u64; 4]) -> u8
    ensures { said result values.new ≡ said_by (read_in 4096 (file_of log.now len) at) }
{
    let found = wal::read_record(log, len, at);
    tell_read(found, values)
}

pub fn nyotmelang_log_append_begin(log: &mut [u8], len: usize, id: u64, values: &mut [u64; 4]) -> u8
    ensures { left result values.new log.new ≡ left_by (appended (begin id) (file_of log.old len)) }
{
    tell(wal::append_begin(log, len, TransactionId(id)), values)
}

pub fn nyotmelang_log_append_abort(log: &mut [u8], len: usize, id: u64, values: &mut [u64; 4]) -> u8
    ensures { left result values.new log.new ≡ left_by (appended (abort id) (file_of log.old len)) }
{
    tell(wal::append_abort(log, len, TransactionId(id)), values)
}

pub fn nyotmelang_log_append_commit(
    log: &mut [u8],
    len: usize,
    id: u64,
    time: u64,
    values: &mut [u64; 4],
) -> u8
    ensures { left result values.new log.new ≡ left_by (appended (commit id time) (file_of log.old len)) }
{
    tell(
        wal::append_commit(log, len, TransactionId(id), CommitTime(time)),
        values,
    )
}

pub fn nyotmelang_log_append_checkpoint(log: &mut [u8], len: usize, values: &mut [u64; 4]) -> u8
    ensures { left result values.new log.new ≡ left_by (appended checkpoint (file_of log.old len)) }
{
    tell(wal::append_checkpoint(log, len), values)
}

pub fn nyotmelang_log_append_page(
    log: &mut [u8],
    len: usize,
    page: u32,
    bytes: &[u8; 4096],
    values: &mut [u64; 4],
) -> u8
    ensures { left result values.new log.new ≡ left_by (appended (image page bytes.now) (file_of log.old len)) }
{
    tell(wal::append_page(log, len, page, bytes), values)
}

pub fn nyotmelang_log_truncate(log: &mut [u8], len: usize, values: &mut [u64; 4]) -> u8
    ensures { left result values.new log.new ≡ left_by (truncated (file_of log.old len)) }
{
    tell(wal::truncate(log, len), values)
}

// ---- the clog

pub fn nyotmelang_clog_open(clog: &mut [u8], len: usize, values: &mut [u64; 4]) -> u8
    ensures { left result values.new clog.new ≡ left_by (opened (file_of clog.old len)) }
{
    tell(clog::open(clog, len), values)
}

pub fn nyotmelang_clog_reset(clog: &mut [u8], len: usize, values: &mut [u64; 4]) -> u8
    ensures { left result values.new clog.new ≡ left_by (wiped (file_of clog.old len)) }
{
    tell(clog::reset(clog, len), values)
}

// The status of a tag that is one.
fn status_in(tag: u64, time: u64) -> Status
    ensures { result ≡ status_in tag time }
{
    if tag == 0 {
        return Status::Active;
    }
    if tag == 1 {
        return Status::Committed(CommitTime(time));
    }
    Status::Aborted
}

// What a tag that is no status is refused with: the buffer and the length are tested first.
fn no_status(size: usize, len: usize, least: usize) -> Refusal
    ensures { number_of result ≡ cond (unfit least size len) 1 14 }
{
    if clog::bad_length(least, size, len) {
        Refusal::Unfit
    } else {
        Refusal::OutOfForm
    }
}

// The clog keeps no time: it is taken so that a status is told as everywhere else.
pub fn nyotmelang_clog_record(
    clog: &mut [u8],
    len: usize,
    id: u64,
    status: u64,
    time: u64,
    values: &mut [u64; 4],
) -> u8
    ensures { left result values.new clog.new ≡ left_by (recorded_tag (file_of clog.old len) id status time) }
{
    if 2 < status {
        return tell(Err(no_status(clog.len(), len, numbers::HEADER)), values);
    }
    let s = status_in(status, time);
    tell(clog::record(clog, len, TransactionId(id), s), values)
}

pub fn nyotmelang_clog_compact(clog: &mut [u8], len: usize, below: u64, values: &mut [u64; 4]) -> u8
    ensures { left result values.new clog.new ≡ left_by (compacted 8 0 (file_of clog.old len) below) }
{
    tell(clog::compact(clog, len, TransactionId(below)), values)
}

// A load's answer: its table's entries are laid in front of the rows, and told are the length that was given and how many they are.
fn hand_load(
    loaded: Result<Table, Refusal>,
    len: usize,
    rows: &mut [[u64; 3]; 256],
    values: &mut [u64; 4],
) -> u8
    ensures { (b : List ℕ) → handed result values.new b rows.new ≡ handed_by rows.old (load_outcome (loaded_of len loaded) b) }
{
    match loaded {
        Ok(t) => {
            rows::lay_table(rows, t);
            put(numbers::ACCEPTED, len as u64, t.count as u64, 0, 0, values)
        }
        Err(why) => put(why.number(), 0, 0, 0, 0, values),
    }
}

pub fn nyotmelang_clog_load(
    clog: &mut [u8],
    len: usize,
    rows: &mut [[u64; 3]; 256],
    values: &mut [u64; 4],
) -> u8
    ensures { handed result values.new clog.new rows.new ≡ handed_by rows.old (loaded 256 8 0 (file_of clog.old len)) }
{
    hand_load(clog::load(clog, len), len, rows, values)
}

// ---- status pages

pub fn nyotmelang_clog_write_pages(
    clog: &[u8],
    len: usize,
    mark: u64,
    out: &mut [u8],
    values: &mut [u64; 4],
) -> u8
    ensures { left result values.new out.new ≡ left_by (written 8192 mark (file_of clog.now len) out.old) }
{
    tell(
        xacts::write_pages(clog, len, TransactionId(mark), out),
        values,
    )
}

pub fn nyotmelang_clog_read_pages(pages: &[u8], out: &mut [u8], values: &mut [u64; 4]) -> u8
    ensures { left result values.new out.new ≡ left_by (read_back 8192 pages.now out.old) }
{
    tell(xacts::read_pages(pages, out), values)
}

// ---- the second form of a clog

pub fn nyotmelang_clog_to_second(
    clog: &[u8],
    len: usize,
    mark: u64,
    out: &mut [u8],
    values: &mut [u64; 4],
) -> u8
    ensures { left result values.new out.new ≡ left_by (moved_second mark (file_of clog.now len) out.old) }
{
    tell(
        shrunk::to_second(clog, len, TransactionId(mark), out),
        values,
    )
}

pub fn nyotmelang_clog_to_first(
    second: &[u8],
    len: usize,
    out: &mut [u8],
    values: &mut [u64; 4],
) -> u8
    ensures { left result values.new out.new ≡ left_by (moved_first (file_of second.now len) out.old) }
{
    tell(shrunk::to_first(second, len, out), values)
}

pub fn nyotmelang_second_record(
    second: &mut [u8],
    len: usize,
    id: u64,
    status: u64,
    time: u64,
    values: &mut [u64; 4],
) -> u8
    ensures { left result values.new second.new ≡ left_by (recorded_second_tag (file_of second.old len) id status time) }
{
    if status > 2 {
        return tell(
            Err(no_status(second.len(), len, numbers::SECOND_HEADER)),
            values,
        );
    }
    let taken = status_in(status, time);
    tell(
        shrunk::record(second, len, TransactionId(id), taken),
        values,
    )
}

pub fn nyotmelang_second_compact(
    second: &mut [u8],
    len: usize,
    below: u64,
    values: &mut [u64; 4],
) -> u8
    ensures { left result values.new second.new ≡ left_by (compacted_second (file_of second.old len) below) }
{
    tell(shrunk::compact(second, len, TransactionId(below)), values)
}

pub fn nyotmelang_second_load(
    second: &mut [u8],
    len: usize,
    rows: &mut [[u64; 3]; 256],
    values: &mut [u64; 4],
) -> u8
    ensures { handed result values.new second.new rows.new ≡ handed_by rows.old (loaded_second 256 (file_of second.old len)) }
{
    hand_load(shrunk::load(second, len), len, rows, values)
}

// ---- page 0

pub fn nyotmelang_meta_format(db: &[u8], len: usize) -> u8
    ensures { result ≡ format_no 4096 (file_of db.now len) }
{
    match meta::check_format(db, len) {
        Ok(()) => numbers::ACCEPTED,
        Err(refusal) => refusal.number(),
    }
}

pub fn nyotmelang_meta_read(db: &[u8], len: usize, values: &mut [u64; 4]) -> u8
    ensures { said result values.new ≡ meta_said (meta_in 4096 (file_of db.now len)) }
{
    let s = meta::read_meta(db, len);
    tell_stored(s, values)
}

pub fn nyotmelang_meta_put(buf: &mut [u8], at: usize, next: u64, time: u64, mark: u64)
    ensures { buf.new ≡ sets buf.old at (meta_page 4096 next time mark) }
{
    let m = Counters {
        next: TransactionId(next),
        time: CommitTime(time),
        mark: TransactionId(mark),
    };
    meta::put_meta(buf, at, m);
}
