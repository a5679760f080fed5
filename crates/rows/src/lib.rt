// The status table where it stands: 256 rows of three numbers, lent as one array, and a count. A row is an id, a tag and a time; a tag is 0 for Active, 1 for
// Committed, 2 for Aborted, and the time is 0 where the tag is not 1. Only this crate goes into a row: what it takes and gives are ids, statuses and times.
#![tactic(auto)]

ghost use Rattle.std.specs.Prelude.{◌≡◌, ◌≤◌, min, [], map, length, take, get_or};
ghost use Rattle.sorted.specs.Sorted.{laid_on};
ghost use Rattle.table.specs.Entries.{list_of, status_of, largest_by, largest_id, largest_time};
ghost use Rattle.table.specs.Inside.{number_of};
ghost use Rattle.rows.specs.Rows.{status_in, odd_row, entry_of, row_of, set_row, held_row, set_all, rowed, rowed_in, row_kept, counted_in};
ghost use Rattle.rows.specs.Inside.{place_of, bad_rows};

use fields::{CommitTime, Refusal, TransactionId, arrays, numbers};
use table::{Entry, Status, Table};

const LIMIT: usize = 256;

// How far entries were set one after the other: the number of the first refusal, 0 while there is none, and how many rows are held. From a number other than 0 on,
// whatever it is, nothing changes: the count is that of then. A number, and no Refusal, since whoever goes on setting may hand in any.
#[derive(Clone, Copy)]
pub struct Filled {
    pub number: u8,
    pub count: usize,
}

// The rows that are held: as many as the count says, and no more than the array has. No function trusts the count that it is given.
fn held(rows: &[[u64; 3]; 256], count: usize) -> &[[u64; 3]]
    ensures list { result.now ≡ take count rows.now }
    ensures len { length result.now ≡ min count 256 }
{
    let n = count.min(LIMIT);
    &rows[..n]
}

// ---- a row

fn status_in(tag: u64, time: u64) -> Status
    ensures { result ≡ status_in tag time }
{
    if tag == 0 {
        return Status::Active;
    }
    if tag == 1 {
        return Status::Committed(CommitTime(time));
    }
    Status::Aborted
}

// An entry as a row.
pub fn row_of(id: TransactionId, status: Status) -> [u64; 3]
    ensures { result ≡ row_of (record { id = id; status = status }) }
{
    let n = id.0;
    match status {
        Status::Active => [n, 0, 0],
        Status::Committed(t) => [n, 1, t.0],
        Status::Aborted => [n, 2, 0],
    }
}

// ---- the test of 14

// Whether a row is no entry's.
fn is_odd(row: [u64; 3]) -> bool
    ensures { result ≡ odd_row row }
{
    let tag = row[1];
    tag != 1 && (2 < tag || row[2] != 0)
}

// Whether one of the first rows is no entry's, or their ids do not ascend. One loop for both, with no early way out.
pub fn is_bad(rows: &[[u64; 3]; 256], count: usize) -> bool
    ensures { result ≡ bad_rows (take count rows.now) }
{
    let n = count.min(LIMIT);
    if n == 0 {
        return false;
    }
    let mut bad = false;
    for i in 1..n {
        let odd = is_odd(rows[i - 1]);
        bad |= odd | (rows[i][0] <= rows[i - 1][0]);
    }
    let odd = is_odd(rows[n - 1]);
    bad | odd
}

// ---- look-up

// How many ids come before the first that is not below `id`.
fn place(rows: &[[u64; 3]], id: TransactionId) -> usize
    ensures is { result ≡ place_of id.0 rows.now }
    ensures bound { result ≤ length rows.now }
{
    for (i, row) in rows.iter().enumerate() {
        if id.0 <= row[0] {
            return i;
        }
    }
    rows.len()
}

pub fn find(rows: &[[u64; 3]; 256], count: usize, id: TransactionId) -> Option<Status>
    ensures { result ≡ status_of id.0 (map entry_of (take count rows.now)) }
{
    for row in held(rows, count) {
        if row[0] == id.0 {
            return Some(status_in(row[1], row[2]));
        }
    }
    None
}

// ---- an entry is set

// What `with_status` answers, whatever the status; nothing is changed.
pub fn check_status(
    rows: &[[u64; 3]; 256],
    count: usize,
    id: TransactionId,
) -> Result<usize, Refusal>
    ensures { counted_in count result ≡ row_kept (set_row 256 rows.now count (record { id = id; status = Status.Active })) }
{
    let list = held(rows, count);
    let n = list.len();
    let p = place(list, id);
    if p < n && rows[p][0] == id.0 {
        return Ok(n);
    }
    if LIMIT <= n {
        return Err(Refusal::TableFull);
    }
    Ok(n + 1)
}

// In the stead of the entry with this id, or at its place by id: the count after it, or a refusal and nothing changed.
pub fn with_status(
    rows: &mut [[u64; 3]; 256],
    count: usize,
    id: TransactionId,
    status: Status,
) -> Result<usize, Refusal>
    ensures { rowed_in count result rows.new ≡ set_row 256 rows.old count (record { id = id; status = status }) }
{
    let x = row_of(id, status);
    let list = held(&*rows, count);
    let n = list.len();
    let p = place(list, id);
    if p < n && rows[p][0] == id.0 {
        rows[p] = x;
        return Ok(n);
    }
    if LIMIT <= n {
        return Err(Refusal::TableFull);
    }
    arrays::shift_in(&mut rows[p..n + 1], x);
    Ok(n + 1)
}

// ---- several entries

// The status set, unless one was refused before: from the first refusal on nothing changes.
pub fn hold(rows: &mut [[u64; 3]; 256], h: Filled, id: TransactionId, status: Status) -> Filled
    ensures { rowed result rows.new ≡ held_row 256 (rowed h rows.old) (record { id = id; status = status }) }
{
    if h.number != numbers::ACCEPTED {
        return h;
    }
    match with_status(rows, h.count, id, status) {
        Ok(count) => Filled {
            number: numbers::ACCEPTED,
            count,
        },
        Err(r) => Filled {
            number: r.number(),
            ..h
        },
    }
}

fn entry_of(row: [u64; 3]) -> Entry
    ensures { result ≡ entry_of row }
{
    let status = status_in(row[1], row[2]);
    Entry {
        id: TransactionId(row[0]),
        status,
    }
}

// The entry i; past the array the one of a row with no numbers.
pub fn entry_at(rows: &[[u64; 3]; 256], i: usize) -> Entry
    ensures { result ≡ entry_of (get_or rows.now i []) }
{
    if LIMIT <= i {
        return Entry {
            id: TransactionId(0),
            status: Status::Active,
        };
    }
    entry_of(rows[i])
}

// The first n entries of top set in rows, in their order, up to the first that is refused.
pub fn overlay(rows: &mut [[u64; 3]; 256], h: Filled, top: &[[u64; 3]; 256], count: usize) -> Filled
    ensures { rowed result rows.new ≡ set_all 256 (rowed h rows.old) (map entry_of (take count top.now)) }
{
    let mut c = h;
    for row in held(top, count) {
        let e = entry_of(*row);
        c = hold(rows, c, e.id, e.status);
    }
    c
}

// The first rows of another array laid in front; what stands past them stays.
pub fn lay(rows: &mut [[u64; 3]; 256], from: &[[u64; 3]; 256], count: usize)
    ensures { rows.new ≡ laid_on rows.old (take count from.now) }
{
    let list = held(from, count);
    fields::copy(rows, list);
}

// ---- the largest

// The number that is compared: a row's time if it is Committed, or its id.
fn number_in(row: [u64; 3], times: bool) -> u64
    ensures { result ≡ number_of times (entry_of row) }
{
    if !times {
        return row[0];
    }
    if row[1] == 1 {
        return row[2];
    }
    0
}

fn largest(rows: &[[u64; 3]; 256], count: usize, times: bool) -> u64
    ensures { result ≡ largest_by (number_of times) (map entry_of (take count rows.now)) }
{
    let mut m = 0;
    for row in held(rows, count) {
        m = m.max(number_in(*row, times));
    }
    m
}

pub fn largest_id(rows: &[[u64; 3]; 256], count: usize) -> TransactionId
    ensures { result ≡ record { 0 = largest_id (map entry_of (take count rows.now)) } }
{
    TransactionId(largest(rows, count, false))
}

// Of the times still Committed.
pub fn largest_time(rows: &[[u64; 3]; 256], count: usize) -> CommitTime
    ensures { result ≡ record { 0 = largest_time (map entry_of (take count rows.now)) } }
{
    CommitTime(largest(rows, count, true))
}

// The entries of a table by value laid in front; what stands past them stays.
pub fn lay_table(rows: &mut [[u64; 3]; 256], t: Table)
    ensures { rows.new ≡ laid_on rows.old (map row_of (list_of t)) }
{
    for i in 0..t.count.min(LIMIT) {
        let e = t.entries[i];
        rows[i] = row_of(e.id, e.status);
    }
}
