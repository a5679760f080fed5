// A store between calls, and the tests of the refusals 1 and 14 that every call makes first. The buffers are lent to each call; the store itself is a value that
// goes in and comes back. specs/Store.antt reads a store and its buffers as the lists that calls are defined over.
#![tactic(auto)]

ghost use Rattle.std.specs.Prelude.{◌≡◌, length};
ghost use Rattle.fields.specs.Refusals.{number_in};
ghost use Rattle.world.specs.World.{files_of};
ghost use Rattle.world.specs.Refusals.{bad_buffers, front_no, is_installed};
ghost use Rattle.form.specs.Store.{world_of};
ghost use Rattle.form.specs.Inside.{out_of_form};

use fields::{CommitTime, Refusal, TransactionId, numbers};
use frames::{Frames, Touched};
use table::Table;
use world::{Lens, Slot};

// The place of the transaction, and its touched pages. The pages stand beside the place, not in it, and are in form also where no transaction is in.
#[derive(Clone, Copy)]
pub struct Held {
    pub slot: Slot,
    pub touched: Touched,
}

// The lengths of the files, page count, next id, next commit time, frozen mark, status table, resident pages, and the transaction.
#[derive(Clone, Copy)]
pub struct Store {
    pub lens: Lens,
    pub pages: u32,
    pub next: TransactionId,
    pub time: CommitTime,
    pub mark: TransactionId,
    pub table: Table,
    pub frames: Frames,
    pub held: Held,
}

// Whether a buffer is over its limit, a length over its buffer, or the frame buffer smaller than a page.
#[tactic(auto, unfolding(world::specs::Refusals::bad_buffers, world::specs::Refusals::any_of, fields::specs::Files::unfit))]
pub fn buffers_bad(lens: Lens, log: &[u8], db: &[u8], clog: &[u8], frames: &[u8]) -> bool
    ensures { result ≡ bad_buffers 4096 (files_of lens log.now db.now clog.now) frames.now }
{
    fields::is_unfit(numbers::BUFFER_LIMIT, log.len(), lens.log)
        || fields::is_unfit(numbers::BUFFER_LIMIT, db.len(), lens.db)
        || fields::is_unfit(numbers::CLOG_LIMIT, clog.len(), lens.clog)
        || frames.len() < numbers::PAGE_SIZE
}

// Whether a store is out of form, for a frame buffer of this size.
fn store_bad(s: Store, size: usize) -> bool
    ensures { result ≡ out_of_form 4096 s size }
{
    s.lens.log < numbers::HEADER
        || s.lens.clog < numbers::HEADER
        || !table::well_formed(s.table)
        || !frames::touched_formed(s.held.touched)
        || !frames::frames_formed(s.frames, size)
}

// What every call tests first: the buffers, then the store.
pub fn check_front(
    s: Store,
    log: &[u8],
    db: &[u8],
    clog: &[u8],
    frames: &[u8],
) -> Result<(), Refusal>
    ensures { number_in result ≡ front_no 4096 (world_of s log.now db.now clog.now frames.now) }
{
    if buffers_bad(s.lens, log, db, clog, frames) {
        return Err(Refusal::Unfit);
    }
    if store_bad(s, frames.len()) {
        return Err(Refusal::OutOfForm);
    }
    Ok(())
}

pub fn is_installed(slot: Slot) -> bool
    ensures { result ≡ is_installed slot }
{
    matches!(slot, Slot::Installed(_))
}
