// Which touched pages a call logs, writes or reverts, picked straight from the lent arrays, and the plans that are made of them. What is picked is what crate picks
// says; a touched page is a 64-bit number and a resident one a 32-bit number, so a touched number that 32 bits do not hold is never resident.
#![tactic(auto)]

ghost use Rattle.std.specs.Prelude.{◌≡◌, [], false, ◌<◌, take};
ghost use Rattle.fields.specs.Answers.{no_time};
ghost use Rattle.frames.specs.Pages.{is_in, found_in, place_told};
ghost use Rattle.picks.specs.Picks.{wants, picked_of};
ghost use Rattle.picks.specs.Inside.{seat_if, grown};
ghost use Rattle.plans.specs.Planned.{plan_of, timed};
ghost use Rattle.gathers.specs.Gathered.{gathered};

use fields::{CommitTime, TransactionId};
use meta::Counters;
use picks::{Picked, Which};
use stores::{Kind, Plan};

// The most touched pages.
const LIMIT: usize = 64;

// The last number that 32 bits hold.
const LAST: u64 = 4294967295;

// Whether a page is a catalog page. The list may be long, unsorted and repeated.
#[tactic(auto, using(picks::proofs::Laws::in_any))]
fn is_catalog(list: &[u32], page: u32) -> bool
    ensures { result ≡ wants Which.Catalog list.now page }
{
    page == 1 || page == 2 || list.contains(&page)
}

fn wanted(which: Which, list: &[u32], page: u32) -> bool
    ensures { result ≡ wants which list.now page }
{
    match which {
        Which::All => true,
        Which::Data => !is_catalog(list, page),
        Which::Catalog => is_catalog(list, page),
    }
}

// With one page more, if it is resident and wanted.
fn with_page(p: Picked, page: u32, place: Option<usize>, want: bool) -> Picked
    requires { p.n < 64 }
    ensures { result ≡ grown p (seat_if want page (place_told place).values) }
{
    if !want {
        return p;
    }
    let Some(slot) = place else {
        return p;
    };
    let n = p.n;
    let mut q = p;
    q.pages[n] = page;
    q.slots[n] = slot;
    q.n = n + 1;
    q
}

// A number that 32 bits do not hold is no resident page's. It takes a slice, since of a slice its proof knows every element to be a value of its type.
fn is_near(resident: &[u32], n: usize, x: u64) -> bool
    requires { 4294967295 < x }
    ensures { is_in x (take n resident.now) ≡ false }
{
    false
}

// With one touched page more.
fn with_touched(
    p: Picked,
    x: u64,
    resident: &[u32; 64],
    f: usize,
    which: Which,
    list: &[u32],
) -> Picked
    requires { p.n < 64 }
    ensures { result ≡ grown p (seat_if (wants which list.now x) x (found_in x (take f resident.now)).values) }
{
    if LAST < x {
        // Nothing reads this: with it the proof knows that the number is not there.
        let near = is_near(resident, f, x);
        return p;
    }
    let page = x as u32;
    let place = seats::find(resident, f, page);
    let want = wanted(which, list, page);
    with_page(p, page, place, want)
}

// The touched resident pages that are wanted.
pub fn pick_in(
    touched: &[u64; 64],
    t: usize,
    resident: &[u32; 64],
    f: usize,
    which: Which,
    list: &[u32],
) -> Picked
    ensures { result ≡ picked_of 64 (gathered which list.now touched.now t resident.now f) }
{
    let n = t.min(LIMIT);
    let mut p = picks::none();
    for page in &touched[..n] {
        p = with_touched(p, *page, resident, f, which, list);
    }
    p
}

// ---- plans

fn no_time() -> CommitTime
    ensures { result ≡ no_time }
{
    CommitTime(0)
}

// The counters are those before the commit; page 0 gets the next commit time after it.
pub fn commit_plan(
    id: TransactionId,
    touched: &[u64; 64],
    t: usize,
    resident: &[u32; 64],
    f: usize,
    c: Counters,
) -> Plan
    ensures { result ≡ plan_of Kind.Commit id c.time (gathered Which.All [] touched.now t resident.now f) (timed c) }
{
    let none: [u32; 0] = [];
    let p = pick_in(touched, t, resident, f, Which::All, &none);
    let pages = p.pages;
    let slots = p.slots;
    let time = c.time;
    let after = table::next_time(time);
    let next = c.next;
    let mark = c.mark;
    let meta = Counters {
        next,
        time: after,
        mark,
    };
    Plan {
        kind: Kind::Commit,
        id,
        time,
        pages,
        slots,
        n: p.n,
        meta,
    }
}

// The data pages are logged and written: the touched resident ones outside pages 1, 2 and the list.
pub fn rollback_plan(
    id: TransactionId,
    touched: &[u64; 64],
    t: usize,
    resident: &[u32; 64],
    f: usize,
    list: &[u32],
    c: Counters,
) -> Plan
    ensures { result ≡ plan_of Kind.Rollback id no_time (gathered Which.Data list.now touched.now t resident.now f) c }
{
    let p = pick_in(touched, t, resident, f, Which::Data, list);
    let pages = p.pages;
    let slots = p.slots;
    let time = no_time();
    Plan {
        kind: Kind::Rollback,
        id,
        time,
        pages,
        slots,
        n: p.n,
        meta: c,
    }
}
