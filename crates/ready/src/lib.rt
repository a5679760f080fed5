// A call with stores, made ready and then carried out. Making ready changes nothing: it refuses the call, or gives its stores as a plan, and the store after it.
// Then the call is carried out, or cut at a store as if power went there, or its stores are counted or told. What is here serves every such call, and of any
// number: a call that was refused with it can be made ready too, and what is made of it has that number. Every public function is total: its contract is one
// equation, which says the answer, the store and every byte of the buffers.
#![tactic(auto)]

ghost use Rattle.std.specs.Prelude.{◌≡◌, cond, ◌*◌};
ghost use Rattle.std.proofs.lemmas.List.Edits.{sets};
ghost use Rattle.fields.specs.Files.{file_of};
ghost use Rattle.stores.specs.Room.{cut_of};
ghost use Rattle.form.specs.Store.{outcome};
ghost use Rattle.ready.specs.Ready.{readied, idle, plain, with_meta, meta_of, refill, changed_as, carried_out, cut_as, cut_at, counted_as, counted_of, told_as, told_of};

use fields::numbers;
use form::Store;
use meta::Counters;
use picks::Picked;
use stores::{Plan, Telling};
use world::Lens;

// The most stores that a plan has.
const MOST: usize = 133;

// What a call would do: its number; its stores; the pages whose frames get the file's bytes back; whether page 0's frame gets the plan's counters, and the slot
// of that frame; the store after it but for the lengths of the files. A refused call has no stores and the old store.
#[derive(Clone, Copy)]
pub struct Ready {
    pub number: u8,
    pub plan: Plan,
    pub back: Picked,
    pub meta: bool,
    pub slot: usize,
    pub store: Store,
}

// What is made of a call that was made ready, beside the call's number: the store or the head after it, the lengths where it was cut, how many stores it has, or
// what is told of one of them.
#[derive(Clone, Copy)]
pub struct Numbered<T> {
    pub number: u8,
    pub value: T,
}

// A call that has no stores: refused, or with nothing to do but for the store that it leaves.
pub fn nothing(number: u8, s: Store) -> Ready
    ensures { result ≡ idle number s }
{
    Ready {
        number,
        plan: plans::no_plan(),
        back: picks::none(),
        meta: false,
        slot: 0,
        store: s,
    }
}

// An accepted call that leaves the frames as they are.
pub fn plain_call(plan: Plan, u: Store) -> Ready
    ensures { result ≡ plain plan u }
{
    Ready {
        number: numbers::ACCEPTED,
        plan,
        back: picks::none(),
        meta: false,
        slot: 0,
        store: u,
    }
}

// An accepted call that gives picked pages the file's bytes back, and writes page 0's frame, which has this slot.
pub fn meta_call(plan: Plan, back: Picked, slot: usize, u: Store) -> Ready
    ensures { result ≡ with_meta plan back slot u }
{
    Ready {
        number: numbers::ACCEPTED,
        plan,
        back,
        meta: true,
        slot,
        store: u,
    }
}

// The file's bytes back into the frames of the picked pages, or zeros for a page that the file has not.
fn give_back(x: Picked, db: &[u8], len: usize, frames: &mut [u8])
    ensures { frames.new ≡ refill 4096 (file_of db.now len) x frames.old }
{
    for i in 0..x.n.min(64) {
        frames::fill_frame(frames, x.slots[i], db, len, x.pages[i]);
    }
}

// The counters into a frame. Whether the slot lies past the buffer's end is tested before its place is worked out, which could overflow.
fn lay_meta(frames: &mut [u8], meta: bool, slot: usize, m: Counters)
    ensures { frames.new ≡ cond meta (sets frames.old (slot * 4096) (meta_of 4096 m)) frames.old }
{
    if !meta {
        return;
    }
    if frames.len() / numbers::PAGE_SIZE < slot {
        return;
    }
    meta::put_meta(frames, slot * numbers::PAGE_SIZE, m);
}

// The stores first, while the frames are as they were; then the frames, from the file that they leave. Where stores are refused, the files stay.
pub fn carry_out(
    r: Ready,
    log: &mut [u8],
    db: &mut [u8],
    clog: &mut [u8],
    frames: &mut [u8],
) -> Numbered<Store>
    ensures { outcome (changed_as result) log.new db.new clog.new frames.new ≡ carried_out 4096 (readied 4096 r log.old db.old clog.old frames.old) log.old db.old clog.old }
{
    let lens = cut_at(r, MOST, log, db, clog, &frames[..]).value;
    give_back(r.back, &db[..], lens.db, frames);
    lay_meta(frames, r.meta, r.slot, r.plan.meta);
    let value = Store { lens, ..r.store };
    Numbered {
        number: r.number,
        value,
    }
}

// As if power went after the first k stores: what memory would hold is gone, so the files alone are left.
pub fn cut_at(
    r: Ready,
    k: usize,
    log: &mut [u8],
    db: &mut [u8],
    clog: &mut [u8],
    frames: &[u8],
) -> Numbered<Lens>
    ensures { cut_of (cut_as result) log.new db.new clog.new ≡ cut_at 4096 k (readied 4096 r log.old db.old clog.old frames.now) log.old db.old clog.old }
{
    let lens = r.store.lens;
    let value = stores::carry_on(r.plan, 0, k, lens, log, db, clog, frames).unwrap_or(lens);
    Numbered {
        number: r.number,
        value,
    }
}

pub fn count_of(r: Ready) -> Numbered<usize>
    ensures { counted_as result ≡ counted_of r }
{
    let value = stores::count(r.plan);
    Numbered {
        number: r.number,
        value,
    }
}

// The lengths are those before the call, since making ready changes none of them.
pub fn told_at(r: Ready, k: usize) -> Numbered<Option<Telling>>
    ensures { told_as result ≡ told_of 4096 k r }
{
    let value = stores::tell(r.plan, k, r.store.lens);
    Numbered {
        number: r.number,
        value,
    }
}
