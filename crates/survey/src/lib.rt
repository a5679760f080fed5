// What an opening tests of the log before it changes a byte: one pass over the records, specs/Survey.antt. The log's table goes into rows that are lent: nothing
// large is carried from record to record. The public function is total: its contract is one equation.
#![tactic(auto)]

ghost use Rattle.std.specs.Prelude.{◌≡◌, ◌+◌, ◌/◌, false, leb};
ghost use Rattle.fields.specs.Files.{file_of};
ghost use Rattle.scan.specs.Inside.{image_past};
ghost use Rattle.survey.specs.Survey.{survey_of, surveyed};
ghost use Rattle.survey.specs.Inside.{with_image, with_status, with_record, with_read};

use fields::{Refusal, TransactionId, numbers};
use rows::Filled;
use table::Status;
use wal::{Read, WalRecord};

// What is found in a log.
#[derive(Clone, Copy)]
pub struct Found {
    // An image lies past the database's buffer.
    pub images: bool,
    // An id's byte lies past the clog's buffer.
    pub ids: bool,
    // How many rows are set; the number of a refusal where the statuses are of more than 256 ids.
    pub held: Filled,
    // How the log ends: at its last byte, or at a bad record; refused as unfit where the log is not read.
    pub ending: Result<(), Refusal>,
}

fn unread(ending: Result<(), Refusal>) -> Found
    ensures { result ≡ record { images = false; ids = false; held = record { number = 0; count = 0 }; ending = ending } }
{
    let held = Filled {
        number: numbers::ACCEPTED,
        count: 0,
    };
    Found {
        images: false,
        ids: false,
        held,
        ending,
    }
}

// ---- one record

// Whether the image of a page has no room in a database buffer of that size.
#[tactic(auto, unfolding(scan::specs::Inside::image_past))]
fn is_past_db(page: u32, size: usize) -> bool
    ensures { result ≡ image_past 4096 size page }
{
    numbers::NO_PAGE <= page || size < page as usize * numbers::PAGE_SIZE + numbers::PAGE_SIZE
}

// Whether the byte of an id lies past a clog buffer of that size.
fn is_past_clog(id: TransactionId, size: usize) -> bool
    ensures { result ≡ leb size (8 + id.0 / 4) }
{
    size <= numbers::HEADER + (id.0 / 4) as usize
}

#[tactic(auto, unfolding(crate::specs::Inside::with_image))]
fn on_image(s: Found, rows: &mut [[u64; 3]; 256], db: usize, page: u32) -> Found
    ensures { survey_of result rows.new ≡ with_image 4096 db page (survey_of s rows.old) }
{
    let images = is_past_db(page, db) || s.images;
    Found { images, ..s }
}

#[tactic(auto, unfolding(crate::specs::Inside::with_status))]
fn on_status(
    s: Found,
    rows: &mut [[u64; 3]; 256],
    clog: usize,
    id: TransactionId,
    status: Status,
) -> Found
    ensures { survey_of result rows.new ≡ with_status clog (record { id = id; status = status }) (survey_of s rows.old) }
{
    let held = rows::hold(rows, s.held, id, status);
    let ids = is_past_clog(id, clog) || s.ids;
    Found { ids, held, ..s }
}

fn on_record(s: Found, rows: &mut [[u64; 3]; 256], db: usize, clog: usize, r: WalRecord) -> Found
    ensures { survey_of result rows.new ≡ with_record 4096 db clog r (survey_of s rows.old) }
{
    match r {
        WalRecord::Image(page, _) => on_image(s, rows, db, page),
        WalRecord::Begin(id) => on_status(s, rows, clog, id, Status::Aborted),
        WalRecord::Commit(id, time) => on_status(s, rows, clog, id, Status::Committed(time)),
        WalRecord::Abort(id) => on_status(s, rows, clog, id, Status::Aborted),
        WalRecord::Checkpoint => s,
    }
}

fn on_read(s: Found, rows: &mut [[u64; 3]; 256], db: usize, clog: usize, r: Read) -> Found
    ensures { survey_of result rows.new ≡ with_read 4096 db clog r (survey_of s rows.old) }
{
    match r {
        Read::Found(found, _) => on_record(s, rows, db, clog, found),
        Read::End => s,
        Read::Torn(_) => Found {
            ending: Err(Refusal::Torn),
            ..s
        },
        Read::Unknown => Found {
            ending: Err(Refusal::UnknownTag),
            ..s
        },
        Read::Outside => s,
    }
}

// ---- the whole log

// db and clog are the sizes of those buffers.
pub fn survey(log: &[u8], len: usize, db: usize, clog: usize, rows: &mut [[u64; 3]; 256]) -> Found
    ensures { survey_of result rows.new ≡ surveyed 4096 db clog (file_of log.now len) rows.old }
{
    if fields::is_unfit(numbers::BUFFER_LIMIT, log.len(), len) {
        return unread(Err(Refusal::Unfit));
    }
    let mut at = wal::start_of(log, len);
    let mut s = unread(Ok(()));
    // No `for`: each turn goes on by what it has read.
    while at < len {
        let r = wal::read_record(log, len, at);
        s = on_read(s, rows, db, clog, r);
        at = scan::next_place(r, len);
    }
    s
}
