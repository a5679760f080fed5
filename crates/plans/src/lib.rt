// From what a store holds to the plan of a call: which pages it logs and writes, with the slots of their frames, and the counters that page 0 gets.
// specs/Planned.antt has the plans, proofs/Meanings.antt shows that they mean the stores of the calls.
#![tactic(auto)]

ghost use Rattle.std.specs.Prelude.{◌≡◌, [], ◌∷◌};
ghost use Rattle.frames.specs.Pages.{resident_of, touched_of};
ghost use Rattle.picks.specs.Picks.{chosen, seats_of, seat};
ghost use Rattle.fields.specs.Answers.{no_id, no_time};
ghost use Rattle.plans.specs.Planned.{plan_of, timed, marked, no_counters};

use fields::{CommitTime, TransactionId};
use frames::{Frames, Touched};
use meta::Counters;
use picks::Which;
use stores::{Kind, Plan};

fn no_id() -> TransactionId
    ensures { result ≡ no_id }
{
    TransactionId(0)
}

fn no_time() -> CommitTime
    ensures { result ≡ no_time }
{
    CommitTime(0)
}

fn no_counters() -> Counters
    ensures { result ≡ no_counters }
{
    Counters {
        next: TransactionId(0),
        time: CommitTime(0),
        mark: TransactionId(0),
    }
}

// A plan without pages.
fn bare(kind: Kind, id: TransactionId, time: CommitTime, meta: Counters) -> Plan
    ensures { result ≡ plan_of kind id time [] meta }
{
    Plan {
        kind,
        id,
        time,
        pages: [0; 64],
        slots: [0; 64],
        n: 0,
        meta,
    }
}

// A call that has no stores.
pub fn no_plan() -> Plan
    ensures { result ≡ plan_of Kind.Nothing no_id no_time [] no_counters }
{
    bare(Kind::Nothing, no_id(), no_time(), no_counters())
}

pub fn begin_plan(id: TransactionId) -> Plan
    ensures { result ≡ plan_of Kind.Begin id no_time [] no_counters }
{
    bare(Kind::Begin, id, no_time(), no_counters())
}

// A flush of a resident page, by the slot of its frame.
pub fn flush_plan(page: u32, slot: usize) -> Plan
    ensures { result ≡ plan_of Kind.Flush no_id no_time (seat page slot ∷ []) no_counters }
{
    let mut p = bare(Kind::Flush, no_id(), no_time(), no_counters());
    p.pages[0] = page;
    p.slots[0] = slot;
    p.n = 1;
    p
}

// The counters are those before the commit; page 0 gets the next commit time after it.
pub fn commit_plan(id: TransactionId, t: Touched, f: Frames, c: Counters) -> Plan
    ensures { result ≡ plan_of Kind.Commit id c.time (seats_of (resident_of f) (chosen Which.All [] (resident_of f) (touched_of t))) (timed c) }
{
    let none: [u32; 0] = [];
    let p = picks::pick(t, f, Which::All, &none);
    let pages = p.pages;
    let slots = p.slots;
    let time = c.time;
    let after = table::next_time(time);
    let next = c.next;
    let mark = c.mark;
    let meta = Counters {
        next,
        time: after,
        mark,
    };
    Plan {
        kind: Kind::Commit,
        id,
        time,
        pages,
        slots,
        n: p.n,
        meta,
    }
}

// The data pages are logged and written: the touched resident ones outside pages 1, 2 and the list.
pub fn rollback_plan(id: TransactionId, t: Touched, f: Frames, list: &[u32], c: Counters) -> Plan
    ensures { result ≡ plan_of Kind.Rollback id no_time (seats_of (resident_of f) (chosen Which.Data list.now (resident_of f) (touched_of t))) c }
{
    let p = picks::pick(t, f, Which::Data, list);
    let pages = p.pages;
    let slots = p.slots;
    let time = no_time();
    Plan {
        kind: Kind::Rollback,
        id,
        time,
        pages,
        slots,
        n: p.n,
        meta: c,
    }
}

pub fn advance_plan(mark: TransactionId, c: Counters) -> Plan
    ensures { result ≡ plan_of Kind.Advance no_id no_time [] (marked mark c) }
{
    let next = c.next;
    let time = c.time;
    let meta = Counters { next, time, mark };
    bare(Kind::Advance, no_id(), no_time(), meta)
}
