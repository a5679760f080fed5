// A store that stands where it is lent: a head of numbers by value, and three arrays that are changed in place: the table's rows, the resident pages, the touched
// pages. specs/Lent.antt reads them as the store that calls are defined over, and says what a call leaves there.
#![tactic(auto)]

ghost use Rattle.std.specs.Prelude.{◌≡◌, ◌||◌};
ghost use Rattle.fields.specs.Refusals.{number_in};
ghost use Rattle.world.specs.Refusals.{front_no};
ghost use Rattle.form.specs.Store.{world_of};
ghost use Rattle.form.specs.Inside.{out_of_form};
ghost use Rattle.lent.specs.Lent.{lent, store_of, odd_head, odd, unless_odd};

use fields::{CommitTime, Refusal, TransactionId, numbers};
use world::Lens;

// The most entries.
const ENTRIES: usize = 256;

// The lengths of the files, page count, next id, next commit time, frozen mark; 1 where a transaction is in and its id, else 0 and 0; how many entries,
// resident pages and touched pages there are. Every field is a word of the host's store, so any words make a head; which of them no store has is tested with 14.
#[derive(Clone, Copy)]
pub struct Head {
    pub lens: Lens,
    pub pages: u64,
    pub next: TransactionId,
    pub time: CommitTime,
    pub mark: TransactionId,
    pub held: u64,
    pub id: TransactionId,
    pub entries: usize,
    pub resident: usize,
    pub touched: usize,
}

// Whether no store has such a head.
#[tactic(auto, unfolding(crate::specs::Lent::odd_head))]
fn is_odd(h: Head) -> bool
    ensures { result ≡ odd_head h }
{
    4294967295 < h.pages || 1 < h.held || h.held == 0 && h.id.0 != 0
}

// Whether no store stands there, or one that is out of form, for a frame buffer of this size. The table is tested in one pass, for statuses and order.
fn is_bad(
    h: Head,
    rows: &[[u64; 3]; 256],
    resident: &[u32; 64],
    touched: &[u64; 64],
    size: usize,
) -> bool
    ensures { result ≡ (odd (lent h rows.now resident.now touched.now) || out_of_form 4096 (store_of (lent h rows.now resident.now touched.now)) size) }
{
    is_odd(h)
        || h.lens.log < numbers::HEADER
        || h.lens.clog < numbers::HEADER
        || ENTRIES < h.entries
        || rows::is_bad(rows, h.entries)
        || !apart::touched_formed(touched, h.touched)
        || !apart::resident_formed(resident, h.resident, size)
}

// What every call tests first: the buffers, then the store.
pub fn check_front(
    h: Head,
    rows: &[[u64; 3]; 256],
    resident: &[u32; 64],
    touched: &[u64; 64],
    log: &[u8],
    db: &[u8],
    clog: &[u8],
    frames: &[u8],
) -> Result<(), Refusal>
    ensures { number_in result ≡ unless_odd 4096 (lent h rows.now resident.now touched.now) log.now db.now clog.now frames.now (λ n. n) (front_no 4096 (world_of (store_of (lent h rows.now resident.now touched.now)) log.now db.now clog.now frames.now)) }
{
    if form::buffers_bad(h.lens, log, db, clog, frames) {
        return Err(Refusal::Unfit);
    }
    if is_bad(h, rows, resident, touched, frames.len()) {
        return Err(Refusal::OutOfForm);
    }
    Ok(())
}
