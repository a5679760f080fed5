// The log's records: reader and writer. A log is a lent buffer and a length; what its bytes mean stands in specs/Records.antt, what the reader
// answers in specs/Reading.antt, what the writer does in specs/Writing.antt. Every public function is total.
#![tactic(auto)]

ghost use Rattle.std.specs.Prelude.{◌≡◌, ◌∷◌, ◌++◌, true, false, ◌+◌, ◌≤◌, ◌<◌, length, take, drop, eqb};
ghost use Rattle.std.proofs.lemmas.List.Edits.{sets};
ghost use Rattle.fields.specs.Bytes.{bytes_of};
ghost use Rattle.fields.specs.Files.{file_of};
ghost use Rattle.fields.specs.Refusals.{number_in};
ghost use Rattle.fields.specs.Answers.{outcome};
ghost use Rattle.wal.specs.Records.{body_of, record_of, encode, image, begin, commit, abort, checkpoint};
ghost use Rattle.wal.specs.Reading.{read_told, read_in, start_in, IsImage};
ghost use Rattle.wal.specs.Inside.{shown, record_place, read_place};
ghost use Rattle.wal.specs.Writing.{append_no, appended_bytes, appended, truncated};

use fields::{CommitTime, Refusal, TransactionId, numbers};

const PAGE_IMAGE_TAG: u8 = 1;

const TX_BEGIN_TAG: u8 = 2;

const TX_COMMIT_TAG: u8 = 3;

const TX_ABORT_TAG: u8 = 4;

const CHECKPOINT_TAG: u8 = 5;

// A whole record of the log.
#[derive(Clone, Copy)]
pub enum WalRecord {
    // The page's number, and where in the log its bytes start.
    Image(u32, usize),
    Begin(TransactionId),
    Commit(TransactionId, CommitTime),
    Abort(TransactionId),
    Checkpoint,
}

// What reading at a place finds. Each case has its own number and values; as a Result of an Option a match would have the same five arms, two layers deep.
#[derive(Clone, Copy)]
pub enum Read {
    // A whole record, and the place after it.
    Found(WalRecord, usize),
    // The place is the log's end.
    End,
    // A tag whose fields are cut short, and how many bytes they lack.
    Torn(usize),
    // A tag that is not 1 to 5.
    Unknown,
    // The buffer is over its limit, the length over the buffer, or the place past the length.
    Outside,
}

// ---- the reader

// How many bytes follow a tag of 1 to 5.
fn body_len(tag: u8) -> usize
    ensures { result ≡ body_of 4096 tag }
{
    match tag {
        PAGE_IMAGE_TAG => 4100,
        TX_COMMIT_TAG => 16,
        CHECKPOINT_TAG => 0,
        _ => 8,
    }
}

// The record with that tag whose fields start at body.
#[inline]
fn record_of(s: &[u8], tag: u8, body: usize) -> WalRecord
    requires { (0 < tag) × (tag ≤ 5) × (body + body_of 4096 tag ≤ length s.now) }
    ensures { result ≡ shown body (record_of tag (take (body_of 4096 tag) (drop body s.now))) }
{
    match tag {
        PAGE_IMAGE_TAG => WalRecord::Image(fields::get_u32(s, body), body + 4),
        TX_BEGIN_TAG => WalRecord::Begin(TransactionId(fields::get_u64(s, body))),
        TX_COMMIT_TAG => WalRecord::Commit(
            TransactionId(fields::get_u64(s, body)),
            CommitTime(fields::get_u64(s, body + 8)),
        ),
        TX_ABORT_TAG => WalRecord::Abort(TransactionId(fields::get_u64(s, body))),
        _ => WalRecord::Checkpoint,
    }
}

// The record at a place of the log, which is the first len bytes of the buffer.
pub fn read_record(log: &[u8], len: usize, at: usize) -> Read
    ensures { read_told result ≡ read_in 4096 (file_of log.now len) at }
{
    if fields::is_unfit(numbers::BUFFER_LIMIT, log.len(), len) {
        return Read::Outside;
    }
    if len < at {
        return Read::Outside;
    }
    let s = &log[..len];
    if len <= at {
        return Read::End;
    }
    let tag = s[at];
    if tag < PAGE_IMAGE_TAG {
        return Read::Unknown;
    }
    if CHECKPOINT_TAG < tag {
        return Read::Unknown;
    }
    let body = at + 1;
    let n = body_len(tag);
    let left = len - body;
    if left < n {
        return Read::Torn(n - left);
    }
    Read::Found(record_of(s, tag, body), body + n)
}

fn record_place(r: WalRecord) -> usize
    ensures { result ≡ record_place r }
{
    match r {
        WalRecord::Image(_, place) => place,
        _ => 0,
    }
}

// Where the page bytes of an image that was read start; 0 where no image was read.
fn read_place(r: Read) -> usize
    ensures { result ≡ read_place r }
{
    match r {
        Read::Found(found, _) => record_place(found),
        _ => 0,
    }
}

// The page bytes of the image at a place: that part of the log, not a copy; empty where no whole image stands.
pub fn image(log: &[u8], len: usize, at: usize) -> &[u8]
    ensures { IsImage 4096 log.entry len at result }
{
    let place = read_place(read_record(log, len, at));
    if place == 0 {
        return &log[0..0];
    }
    let end = place + numbers::PAGE_SIZE;
    &log[place..end]
}

// Where the log's records start: after its magic, or at its end where it has none.
pub fn start_of(log: &[u8], len: usize) -> usize
    ensures { result ≡ start_in (file_of log.now len) }
{
    let end = len.min(log.len());
    if fields::begins(b"AEROWAL2", &log[..end]) {
        return numbers::HEADER;
    }
    end
}

// ---- the writer

// Whether size bytes may be appended; bad says that the page number is none.
fn check_append(cap: usize, len: usize, size: usize, bad: bool) -> Result<(), Refusal>
    ensures { number_in result ≡ append_no bad size cap len }
{
    if fields::is_unfit(numbers::BUFFER_LIMIT, cap, len) {
        return Err(Refusal::Unfit);
    }
    if bad {
        return Err(Refusal::BadPage);
    }
    if cap - len < size {
        return Err(Refusal::LogFull);
    }
    Ok(())
}

fn put_id(log: &mut [u8], at: usize, tag: u8, id: TransactionId)
    requires { at + 9 ≤ length log.old }
    ensures { log.new ≡ sets log.old at (tag ∷ bytes_of 8 id.0) }
{
    log[at] = tag;
    fields::put_u64(log, at + 1, id.0);
}

// Begin and abort: a tag and an id.
fn append_id(log: &mut [u8], len: usize, tag: u8, id: TransactionId) -> Result<usize, Refusal>
    ensures { outcome result log.new ≡ appended_bytes false (tag ∷ bytes_of 8 id.0) (file_of log.old len) }
{
    check_append(log.len(), len, 9, false)?;
    put_id(log, len, tag, id);
    Ok(len + 9)
}

pub fn append_begin(log: &mut [u8], len: usize, id: TransactionId) -> Result<usize, Refusal>
    ensures { outcome result log.new ≡ appended (begin id.0) (file_of log.old len) }
{
    append_id(log, len, TX_BEGIN_TAG, id)
}

pub fn append_abort(log: &mut [u8], len: usize, id: TransactionId) -> Result<usize, Refusal>
    ensures { outcome result log.new ≡ appended (abort id.0) (file_of log.old len) }
{
    append_id(log, len, TX_ABORT_TAG, id)
}

pub fn append_commit(
    log: &mut [u8],
    len: usize,
    id: TransactionId,
    time: CommitTime,
) -> Result<usize, Refusal>
    ensures { outcome result log.new ≡ appended (commit id.0 time.0) (file_of log.old len) }
{
    check_append(log.len(), len, 17, false)?;
    put_id(log, len, TX_COMMIT_TAG, id);
    fields::put_u64(log, len + 9, time.0);
    Ok(len + 17)
}

pub fn append_checkpoint(log: &mut [u8], len: usize) -> Result<usize, Refusal>
    ensures { outcome result log.new ≡ appended checkpoint (file_of log.old len) }
{
    check_append(log.len(), len, 1, false)?;
    log[len] = CHECKPOINT_TAG;
    Ok(len + 1)
}

fn put_page(log: &mut [u8], at: usize, page: u32, bytes: &[u8])
    requires { at + 5 ≤ length log.old }
    ensures { log.new ≡ sets log.old at (encode (image page bytes.now)) }
{
    log[at] = PAGE_IMAGE_TAG;
    fields::put_u32(log, at + 1, page);
    fields::lay(log, at + 5, bytes);
}

pub fn append_page(
    log: &mut [u8],
    len: usize,
    page: u32,
    bytes: &[u8; 4096],
) -> Result<usize, Refusal>
    ensures { outcome result log.new ≡ appended (image page bytes.now) (file_of log.old len) }
{
    check_append(log.len(), len, 4101, page == numbers::NO_PAGE)?;
    put_page(log, len, page, bytes);
    Ok(len + 4101)
}

// The log cut back to its magic; bytes past it stay.
pub fn truncate(log: &mut [u8], len: usize) -> Result<usize, Refusal>
    ensures { outcome result log.new ≡ truncated (file_of log.old len) }
{
    if fields::is_unfit(numbers::BUFFER_LIMIT, log.len(), len) {
        return Err(Refusal::Unfit);
    }
    if log.len() < numbers::HEADER {
        return Err(Refusal::LogFull);
    }
    fields::lay(log, 0, b"AEROWAL2");
    Ok(numbers::HEADER)
}
