// The log's images laid into the database: specs/Replay.antt. The public function is total: its contract is one equation.
#![tactic(auto)]

ghost use Rattle.std.specs.Prelude.{◌≡◌};
ghost use Rattle.fields.specs.Files.{file_of};
ghost use Rattle.replay.specs.Replay.{laid_from};
ghost use Rattle.replay.specs.Inside.{record_page, read_page, laid_page};

use fields::numbers;
use wal::{Read, WalRecord};

fn record_page(r: WalRecord) -> u32
    ensures { result ≡ record_page r }
{
    match r {
        WalRecord::Image(page, _) => page,
        WalRecord::Begin(_) => 0,
        WalRecord::Commit(_, _) => 0,
        WalRecord::Abort(_) => 0,
        WalRecord::Checkpoint => 0,
    }
}

// The page number of an image that was read; 0 where no image was read.
fn read_page(r: Read) -> u32
    ensures { result ≡ read_page r }
{
    match r {
        Read::Found(found, _) => record_page(found),
        Read::End => 0,
        Read::Torn(_) => 0,
        Read::Unknown => 0,
        Read::Outside => 0,
    }
}

// A gap between the length and the page becomes zeros; then the buffer's part from the page's offset on is lent to the page copy. No bytes lay nothing.
fn lay_page(db: &mut [u8], len: usize, page: u32, bytes: &[u8]) -> usize
    ensures { file_of db.new result ≡ laid_page 4096 page bytes.now (file_of db.old len) }
{
    let n = bytes.len();
    if n == 0 {
        return len;
    }
    let at = page as usize * numbers::PAGE_SIZE;
    let end = len.max(at + n);
    fields::zero_fill(db, len, at);
    if db.len() < at {
        return end;
    }
    fields::copy(&mut db[at..], bytes);
    end
}

// Every image before the first bad record, whether or not a commit follows. The log's length is end, the database's is len; its new length is answered.
pub fn lay_images(log: &[u8], end: usize, db: &mut [u8], len: usize) -> usize
    ensures { file_of db.new result ≡ laid_from 4096 (file_of log.now end) (file_of db.old len) }
{
    if fields::is_unfit(numbers::BUFFER_LIMIT, log.len(), end) {
        return len;
    }
    let mut at = wal::start_of(log, end);
    let mut n = len;
    // No `for`: each turn goes on by what it has read.
    while at < end {
        let r = wal::read_record(log, end, at);
        let bytes = wal::image(log, end, at);
        n = lay_page(db, n, read_page(r), bytes);
        at = scan::next_place(r, end);
    }
    n
}
