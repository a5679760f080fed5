// A call with stores on a store that stands where it is lent, made ready and then carried out. Making ready changes nothing: it gives a small value, the call's
// stores as a plan, what it changes in the lent arrays, and the head after it; or it refuses the call, and nothing is left to do. Then the call is carried out, or
// cut at a store as if power went there, or its stores are counted or told. What is here serves every such call, and of any number, as in ready. Every public
// function is total: its contract is one equation.
#![tactic(auto)]

ghost use Rattle.std.specs.Prelude.{◌≡◌, cond, ◌*◌};
ghost use Rattle.std.proofs.lemmas.List.Edits.{sets};
ghost use Rattle.fields.specs.Files.{file_of};
ghost use Rattle.fields.specs.Refusals.{number_in};
ghost use Rattle.rows.specs.Rows.{set_row, rowed_in};
ghost use Rattle.seats.specs.Seats.{seated_by, marked_by};
ghost use Rattle.stores.specs.Room.{cut_of};
ghost use Rattle.lent.specs.Lent.{lent, leaving};
ghost use Rattle.ready.specs.Ready.{meta_of, refill, cut_as, counted_as, told_as};
ghost use Rattle.acts.specs.Made.{rows_after, touched_after, resident_after, after_in, bare_made, plain_made, meta_made, made_in, left_by, cut_made, counted_made, told_made};
ghost use Rattle.acts.specs.Inside.{files_left, files_made};

use fields::{Refusal, TransactionId, numbers};
use lent::Head;
use meta::Counters;
use picks::Picked;
use ready::Numbered;
use stores::{Plan, Telling};
use table::Status;
use world::Lens;

// The most stores that a plan has.
const MOST: usize = 133;

// What a call changes in the table or in the touched pages: nothing, a status is set, a page is marked.
#[derive(Clone, Copy)]
pub enum Change {
    Same,
    Set(TransactionId, Status),
    Touch(u32),
}

// What a call would do: its number; its stores; the pages whose frames get the file's bytes back; whether page 0 becomes resident and its frame gets the plan's
// counters, and the slot of that frame; the change; the head after it but for the lengths of the files and the counts of what is changed. A refused call has no
// stores, changes nothing and has the old head.
#[derive(Clone, Copy)]
pub struct Made {
    pub number: u8,
    pub plan: Plan,
    pub back: Picked,
    pub meta: bool,
    pub slot: usize,
    pub change: Change,
    pub head: Head,
}

// A call that has no stores: refused, or with nothing to do but for a change.
pub fn bare(number: u8, change: Change, head: Head) -> Made
    ensures { result ≡ bare_made number change head }
{
    Made {
        number,
        plan: plans::no_plan(),
        back: picks::none(),
        meta: false,
        slot: 0,
        change,
        head,
    }
}

// An accepted call that leaves the frames as they are.
pub fn plain_call(plan: Plan, change: Change, head: Head) -> Made
    ensures { result ≡ plain_made plan change head }
{
    Made {
        number: numbers::ACCEPTED,
        plan,
        back: picks::none(),
        meta: false,
        slot: 0,
        change,
        head,
    }
}

// An accepted call that gives picked pages the file's bytes back, and writes page 0's frame, which has this slot.
pub fn meta_call(plan: Plan, back: Picked, slot: usize, change: Change, head: Head) -> Made
    ensures { result ≡ meta_made plan back slot change head }
{
    Made {
        number: numbers::ACCEPTED,
        plan,
        back,
        meta: true,
        slot,
        change,
        head,
    }
}

// Whether the table has room for a status of this id.
pub fn check_table(rows: &[[u64; 3]; 256], n: usize, id: TransactionId) -> Result<(), Refusal>
    ensures { number_in result ≡ (set_row 256 rows.now n (record { id = id; status = Status.Active })).number }
{
    rows::check_status(rows, n, id)?;
    Ok(())
}

// ---- the stores and the frames

// The file's bytes back into the frames of the picked pages, or zeros for a page that the file has not.
fn give_back(x: Picked, db: &[u8], len: usize, frames: &mut [u8])
    ensures { frames.new ≡ refill 4096 (file_of db.now len) x frames.old }
{
    for i in 0..x.n.min(64) {
        frames::fill_frame(frames, x.slots[i], db, len, x.pages[i]);
    }
}

// The counters into a frame. Whether the slot lies past the buffer's end is tested before its place is worked out, which could overflow.
fn lay_meta(frames: &mut [u8], meta: bool, slot: usize, m: Counters)
    ensures { frames.new ≡ cond meta (sets frames.old (slot * 4096) (meta_of 4096 m)) frames.old }
{
    if !meta {
        return;
    }
    if frames.len() / numbers::PAGE_SIZE < slot {
        return;
    }
    meta::put_meta(frames, slot * numbers::PAGE_SIZE, m);
}

// The stores first, while the frames are as they were; then the frames, from the file that they leave.
fn carry_files(m: Made, log: &mut [u8], db: &mut [u8], clog: &mut [u8], frames: &mut [u8]) -> Lens
    ensures { files_left result log.new db.new clog.new frames.new ≡ files_made 4096 m log.old db.old clog.old frames.old }
{
    let end = cut_at(m, MOST, log, db, clog, &frames[..]).value;
    give_back(m.back, &db[..], end.db, frames);
    lay_meta(frames, m.meta, m.slot, m.plan.meta);
    end
}

// ---- the arrays

fn change_rows(rows: &mut [[u64; 3]; 256], n: usize, change: Change) -> Result<usize, Refusal>
    ensures { rowed_in n result rows.new ≡ rows_after rows.old n change }
{
    match change {
        Change::Set(id, status) => rows::with_status(rows, n, id, status),
        Change::Same | Change::Touch(_) => Ok(n),
    }
}

fn change_touched(touched: &mut [u64; 64], n: usize, change: Change) -> Result<usize, Refusal>
    ensures { marked_by n result touched.new ≡ touched_after touched.old n change }
{
    match change {
        Change::Touch(page) => seats::mark(touched, n, page),
        Change::Same | Change::Set(_, _) => Ok(n),
    }
}

// Page 0 becomes resident where its frame is written.
fn change_resident(
    resident: &mut [u32; 64],
    n: usize,
    size: usize,
    meta: bool,
) -> Result<usize, Refusal>
    ensures { seated_by n result resident.new ≡ resident_after 4096 size resident.old n meta }
{
    if meta {
        seats::seat(resident, n, size, 0)
    } else {
        Ok(n)
    }
}

// The store after the call, where it stands, but for the lengths of the files.
fn change_arrays(
    m: Made,
    size: usize,
    rows: &mut [[u64; 3]; 256],
    resident: &mut [u32; 64],
    touched: &mut [u64; 64],
) -> Head
    ensures { lent result rows.new resident.new touched.new ≡ after_in 4096 size m rows.old resident.old touched.old }
{
    let head = m.head;
    let t = change_rows(rows, head.entries, m.change);
    let f = change_resident(resident, head.resident, size, m.meta);
    let x = change_touched(touched, head.touched, m.change);
    Head {
        entries: t.unwrap_or(head.entries),
        resident: f.unwrap_or(head.resident),
        touched: x.unwrap_or(head.touched),
        ..head
    }
}

// ---- carried out, cut, counted, told

pub fn carry_out(
    m: Made,
    rows: &mut [[u64; 3]; 256],
    resident: &mut [u32; 64],
    touched: &mut [u64; 64],
    log: &mut [u8],
    db: &mut [u8],
    clog: &mut [u8],
    frames: &mut [u8],
) -> Numbered<Head>
    ensures { leaving result.number (lent result.value rows.new resident.new touched.new) log.new db.new clog.new frames.new ≡ left_by 4096 (made_in 4096 m rows.old resident.old touched.old log.old db.old clog.old frames.old) log.old db.old clog.old }
{
    let size = frames.len();
    let end = carry_files(m, log, db, clog, frames);
    let after = change_arrays(m, size, rows, resident, touched);
    let value = Head { lens: end, ..after };
    Numbered {
        number: m.number,
        value,
    }
}

// As if power went after the first k stores: what memory would hold is gone, so the files alone are left. Where stores are refused, the files stay.
pub fn cut_at(
    m: Made,
    k: usize,
    log: &mut [u8],
    db: &mut [u8],
    clog: &mut [u8],
    frames: &[u8],
) -> Numbered<Lens>
    ensures { cut_of (cut_as result) log.new db.new clog.new ≡ cut_made 4096 k m log.old db.old clog.old frames.now }
{
    let lens = m.head.lens;
    let value = stores::carry_on(m.plan, 0, k, lens, log, db, clog, frames).unwrap_or(lens);
    Numbered {
        number: m.number,
        value,
    }
}

pub fn count_of(m: Made) -> Numbered<usize>
    ensures { counted_as result ≡ counted_made m }
{
    let value = stores::count(m.plan);
    Numbered {
        number: m.number,
        value,
    }
}

// The lengths are those before the call, since making ready changes none of them.
pub fn told_at(m: Made, k: usize) -> Numbered<Option<Telling>>
    ensures { told_as result ≡ told_made 4096 k m }
{
    let value = stores::tell(m.plan, k, m.head.lens);
    Numbered {
        number: m.number,
        value,
    }
}
