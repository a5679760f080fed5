// The status table: at most 256 entries, ids strictly ascending. A table goes in by value and comes back. Every public function is total:
// its contract is an equation with a definition of specs/Entries.antt.
#![tactic(auto)]

ghost use Rattle.std.specs.Prelude.{◌≡◌, ◌≤◌, min, length};
ghost use Rattle.table.specs.Entries.{empty_table, list_of, inserted_of, inserted, overlaid, status_of, well_formed, settled_status, active_to_aborted, settled_table, largest_by, largest_id, largest_time, time_of, next64};
ghost use Rattle.table.specs.Inside.{number_of, place_of};

use fields::{CommitTime, Refusal, TransactionId, arrays};

const LIMIT: usize = 256;

#[derive(Clone, Copy)]
pub enum Status {
    Active,
    Committed(CommitTime),
    Aborted,
}

#[derive(Clone, Copy)]
pub struct Entry {
    pub id: TransactionId,
    pub status: Status,
}

#[derive(Clone, Copy)]
pub struct Table {
    pub entries: [Entry; 256],
    pub count: usize,
}

pub fn empty() -> Table
    ensures { result ≡ empty_table 256 }
{
    let blank = Entry {
        id: TransactionId(0),
        status: Status::Active,
    };
    Table {
        entries: [blank; 256],
        count: 0,
    }
}

// The entries of a table: as many as its count says, and no more than the array has. No function trusts the count of a table that it is given.
fn held(t: &Table) -> &[Entry]
    ensures list { result.now ≡ list_of t.now }
    ensures len { length result.now ≡ min t.now.count 256 }
{
    let n = t.count.min(LIMIT);
    &t.entries[..n]
}

pub fn well_formed(t: Table) -> bool
    ensures { result ≡ well_formed 256 t }
{
    t.count <= LIMIT && held(&t).is_sorted_by(|x, y| x.id.0 < y.id.0)
}

pub fn find(t: Table, id: TransactionId) -> Option<Status>
    ensures { result ≡ status_of id.0 (list_of t) }
{
    for e in held(&t) {
        if e.id.0 == id.0 {
            return Some(e.status);
        }
    }
    None
}

// How many entries come before the first whose id is not below `id`.
fn place(entries: &[Entry], id: TransactionId) -> usize
    ensures is { result ≡ place_of id.0 entries.now }
    ensures bound { result ≤ length entries.now }
{
    for (i, e) in entries.iter().enumerate() {
        if id.0 <= e.id.0 {
            return i;
        }
    }
    entries.len()
}

pub fn with_status(t: Table, id: TransactionId, status: Status) -> Result<Table, Refusal>
    ensures { inserted_of t result ≡ inserted 256 t (record { id = id; status = status }) }
{
    let e = Entry { id, status };
    let list = held(&t);
    let n = list.len();
    let p = place(list, id);
    let mut entries = t.entries;
    if p < n && entries[p].id.0 == id.0 {
        entries[p] = e;
        return Ok(Table { entries, count: n });
    }
    if LIMIT <= n {
        return Err(Refusal::TableFull);
    }
    arrays::shift_in(&mut entries[p..n + 1], e);
    Ok(Table {
        entries,
        count: n + 1,
    })
}

// The entries of top set in t, in their order.
pub fn overlay(t: Table, top: Table) -> Result<Table, Refusal>
    ensures { inserted_of t result ≡ overlaid 256 t top }
{
    let entries = t.entries;
    let count = held(&t).len();
    let mut u = Table { entries, count };
    for e in held(&top) {
        u = with_status(u, e.id, e.status)?;
    }
    Ok(u)
}

fn settled_status(s: Status) -> Status
    ensures { result ≡ settled_status s }
{
    match s {
        Status::Active => Status::Aborted,
        Status::Committed(t) => Status::Committed(t),
        Status::Aborted => Status::Aborted,
    }
}

fn settle_all(entries: &mut [Entry])
    ensures { entries.new ≡ active_to_aborted entries.old }
{
    for e in entries.iter_mut() {
        e.status = settled_status(e.status);
    }
}

pub fn settle(t: Table) -> Table
    ensures { result ≡ settled_table t }
{
    let n = held(&t).len();
    let mut entries = t.entries;
    settle_all(&mut entries[..n]);
    Table { entries, count: n }
}

fn time_of(s: Status) -> u64
    ensures { result ≡ time_of s }
{
    match s {
        Status::Active => 0,
        Status::Committed(t) => t.0,
        Status::Aborted => 0,
    }
}

// The number that is compared: an entry's time, or its id.
fn number_of(e: Entry, times: bool) -> u64
    ensures { result ≡ number_of times e }
{
    if times { time_of(e.status) } else { e.id.0 }
}

fn largest(t: Table, times: bool) -> u64
    ensures { result ≡ largest_by (number_of times) (list_of t) }
{
    let mut m = 0;
    for e in held(&t) {
        m = m.max(number_of(*e, times));
    }
    m
}

pub fn largest_id(t: Table) -> TransactionId
    ensures { result ≡ record { 0 = largest_id (list_of t) } }
{
    TransactionId(largest(t, false))
}

// Of the times still Committed.
pub fn largest_time(t: Table) -> CommitTime
    ensures { result ≡ record { 0 = largest_time (list_of t) } }
{
    CommitTime(largest(t, true))
}

// The next one, stopping at the 64-bit maximum.
pub fn next_id(id: TransactionId) -> TransactionId
    ensures { result ≡ record { 0 = next64 id.0 } }
{
    TransactionId(id.0.saturating_add(1))
}

pub fn next_time(time: CommitTime) -> CommitTime
    ensures { result ≡ record { 0 = next64 time.0 } }
{
    CommitTime(time.0.saturating_add(1))
}
