// The clog: two bits for each transaction id, after a header. Every public function is total; its contract is one equation with a
// definition of specs/Calls.antt. What record, compact and load do is told over the header's length h and the first id, base:
// 8 and 0 in the form of document 01. The functions over any h and base, `record_in`, `compact_in` and `load_in`, are public for the second form (crate shrunk);
// a base has 32 bits there, so that no id of a clog can pass 64.
#![tactic(auto)]

ghost use Rattle.std.specs.Prelude.{◌≡◌, map, cond, ◌+◌, ◌-◌, ◌/◌, ◌^◌, ◌<◌, ◌≤◌, length, take, drop, get_or, eqb};
ghost use Rattle.std.proofs.lemmas.List.Edits.{sets};
ghost use Rattle.fields.specs.Files.{file_of};
ghost use Rattle.fields.specs.Refusals.{number_in};
ghost use Rattle.fields.specs.Answers.{outcome};
ghost use Rattle.table.specs.Entries.{empty_table, laid};
ghost use Rattle.clog.specs.Slots.{code_of, bits_of, with_bits, high_bits, slot_of, cleared, span_below, entry_of, entries_in, in_use, loaded_status, settled_code, settled_byte};
ghost use Rattle.clog.specs.Calls.{unfit, reset_no, record_no, compact_no, load_no, opened, wiped, recorded, compacted, loaded_of, load_outcome, loaded, seen, seen_of};
ghost use Rattle.clog.specs.Inside.{push_all, stride_of};

use fields::{CommitTime, Refusal, TransactionId, numbers};
use table::{Entry, Status, Table};

// The most entries of a table.
const TABLE_LIMIT: usize = 256;

// ---- the four slots of a byte: by division and remainder, each case with its own literals

fn bits(b: u8, m: u64) -> u8
    requires { m < 4 }
    ensures { result ≡ bits_of m b }
{
    match m {
        0 => b % 4,
        1 => b / 4 % 4,
        2 => b / 16 % 4,
        _ => b / 64 % 4,
    }
}

// The byte with its slot m set to c.
fn with_bits(b: u8, m: u64, c: u8) -> u8
    requires { (m < 4) × (c < 4) }
    ensures { result ≡ with_bits m c b }
{
    match m {
        0 => b / 4 * 4 + c,
        1 => b / 16 * 16 + c * 4 + b % 4,
        2 => b / 64 * 64 + c * 16 + b % 16,
        _ => c * 64 + b % 64,
    }
}

// The byte with its slots under w cleared.
fn high_bits(b: u8, w: u64) -> u8
    ensures { result ≡ high_bits w b }
{
    match w {
        0 => b,
        1 => b / 4 * 4,
        2 => b / 16 * 16,
        3 => b / 64 * 64,
        _ => 0,
    }
}

fn settled_code(c: u8) -> u8
    requires { c < 4 }
    ensures { (result ≡ settled_code c) × (result < 4) }
{
    if c == 1 { 3 } else { c }
}

// The byte with Active become Aborted.
pub fn settled_byte(b: u8) -> u8
    ensures { result ≡ settled_byte b }
{
    let c0 = settled_code(b % 4);
    let c1 = settled_code(b / 4 % 4);
    let c2 = settled_code(b / 16 % 4);
    let c3 = settled_code(b / 64 % 4);
    c0 + 4 * c1 + 16 * c2 + 64 * c3
}

fn code_of(s: Status) -> u8
    ensures { (result ≡ code_of s) × (result < 4) }
{
    match s {
        Status::Active => 1,
        Status::Committed(_) => 2,
        Status::Aborted => 3,
    }
}

// ---- the refusals

// Whether a clog's buffer is over its limit, its length over the buffer, or under the least one.
pub fn bad_length(least: usize, size: usize, len: usize) -> bool
    ensures { result ≡ unfit least size len }
{
    fields::is_unfit(numbers::CLOG_LIMIT, size, len) || len < least
}

fn check_reset(size: usize, len: usize) -> Result<(), Refusal>
    ensures { number_in result ≡ reset_no size len }
{
    if bad_length(0, size, len) {
        return Err(Refusal::Unfit);
    }
    if size < numbers::HEADER {
        return Err(Refusal::ClogFull);
    }
    Ok(())
}

// The byte of an id is compared with the room after the header: a sum with the header could pass the largest usize.
fn check_record(h: usize, base: u64, id: u64, size: usize, len: usize) -> Result<(), Refusal>
    ensures { number_in result ≡ record_no h base id size len }
{
    if bad_length(h, size, len) {
        return Err(Refusal::Unfit);
    }
    if id < base {
        return Err(Refusal::IdBelowBase);
    }
    let byte = ((id - base) / 4) as usize;
    if size - h <= byte {
        return Err(Refusal::ClogFull);
    }
    Ok(())
}

fn check_compact(h: usize, size: usize, len: usize) -> Result<(), Refusal>
    ensures { number_in result ≡ compact_no h size len }
{
    if bad_length(h, size, len) {
        return Err(Refusal::Unfit);
    }
    Ok(())
}

fn check_load(clog: &[u8], len: usize, h: usize) -> Result<(), Refusal>
    ensures { number_in result ≡ load_no 256 h (file_of clog.now len) }
{
    if bad_length(h, clog.len(), len) {
        return Err(Refusal::Unfit);
    }
    let n = count_in(&clog[..len], h);
    if TABLE_LIMIT < n {
        return Err(Refusal::TableFull);
    }
    Ok(())
}

// ---- open and reset

pub fn reset(clog: &mut [u8], len: usize) -> Result<usize, Refusal>
    ensures { outcome result clog.new ≡ wiped (file_of clog.old len) }
{
    check_reset(clog.len(), len)?;
    fields::lay(clog, 0, b"AEROCLG1");
    Ok(numbers::HEADER)
}

pub fn open(clog: &mut [u8], len: usize) -> Result<usize, Refusal>
    ensures { outcome result clog.new ≡ opened (file_of clog.old len) }
{
    check_reset(clog.len(), len)?;
    let valid = fields::begins(b"AEROCLG1", &clog[..len]);
    if valid {
        return Ok(len);
    }
    fields::lay(clog, 0, b"AEROCLG1");
    Ok(numbers::HEADER)
}

// ---- record

// Zeros go from the length through the slot's byte: a byte past the length counts as 0, whatever the buffer has there.
fn put_in(
    clog: &mut [u8],
    len: usize,
    h: usize,
    base: u64,
    id: u64,
    code: u8,
) -> Result<usize, Refusal>
    requires { code < 4 }
    ensures { outcome result clog.new ≡ recorded h base (file_of clog.old len) id code }
{
    check_record(h, base, id, clog.len(), len)?;
    let k = id - base;
    let at = h + (k / 4) as usize;
    fields::zero_fill(clog, len, at + 1);
    clog[at] = with_bits(clog[at], k % 4, code);
    Ok(len.max(at + 1))
}

pub fn record_in(
    clog: &mut [u8],
    len: usize,
    h: usize,
    base: u32,
    id: TransactionId,
    status: Status,
) -> Result<usize, Refusal>
    ensures { outcome result clog.new ≡ recorded h base (file_of clog.old len) id.0 (code_of status) }
{
    let code = code_of(status);
    put_in(clog, len, h, base as u64, id.0, code)
}

pub fn record(
    clog: &mut [u8],
    len: usize,
    id: TransactionId,
    status: Status,
) -> Result<usize, Refusal>
    ensures { outcome result clog.new ≡ recorded 8 0 (file_of clog.old len) id.0 (code_of status) }
{
    record_in(clog, len, numbers::HEADER, 0, id, status)
}

// ---- compact

// How many bytes after the header a compaction of a clog of that length rewrites.
pub fn span_below(len: usize, below: TransactionId) -> usize
    ensures { result ≡ span_below (len - 8) below.0 }
{
    len.saturating_sub(numbers::HEADER)
        .min(below.0.div_ceil(4) as usize)
}

// The slots under w of the bytes become 0: of those that lie under it as a whole nothing is left, then those of the byte in which it falls. No byte after that is
// visited.
fn clear(body: &mut [u8], w: u64)
    ensures { body.new ≡ cleared w body.old }
{
    let whole = body.len().min((w / 4) as usize);
    for i in 0..whole {
        body[i] = high_bits(body[i], 4);
    }
    if whole < body.len() {
        body[whole] = high_bits(body[whole], w % 4);
    }
}

// Ids below the base have no slot here: there is nothing to clear for them.
pub fn compact_in(
    clog: &mut [u8],
    len: usize,
    h: usize,
    base: u32,
    below: TransactionId,
) -> Result<usize, Refusal>
    ensures { outcome result clog.new ≡ compacted h base (file_of clog.old len) below.0 }
{
    check_compact(h, clog.len(), len)?;
    clear(&mut clog[h..len], below.0.saturating_sub(base as u64));
    Ok(len)
}

pub fn compact(clog: &mut [u8], len: usize, below: TransactionId) -> Result<usize, Refusal>
    ensures { outcome result clog.new ≡ compacted 8 0 (file_of clog.old len) below.0 }
{
    compact_in(clog, len, numbers::HEADER, 0, below)
}

// ---- load: count, list, settle, each its own loop with no branch. An accepted load's length is the one that it was given.

// The slot k after a header of h bytes.
fn slot_at(s: &[u8], h: usize, k: usize) -> u8
    requires { h + k / 4 < length s.now }
    ensures { (result ≡ slot_of h s.now k) × (result < 4) }
{
    let at = h + k / 4;
    bits(s[at], (k % 4) as u64)
}

fn one_if(c: u8) -> usize
    ensures { (result ≡ cond (eqb c 0) 0 1) × (result ≤ 1) }
{
    if c == 0 { 0 } else { 1 }
}

// From the slot k to the next that can differ from 0: the rest of a byte that is 0 is passed over.
fn stride(s: &[u8], h: usize, k: usize) -> usize
    requires { h + k / 4 < length s.now }
    ensures { result ≡ stride_of (get_or s.now (h + k / 4) 0) k }
{
    let at = h + k / 4;
    if s[at] == 0 {
        return 4 - k % 4;
    }
    1
}

// How many slots are not 0.
fn count_in(s: &[u8], h: usize) -> usize
    requires { (h ≤ length s.now) × (length s.now ≤ 1048576) }
    ensures { result ≡ in_use h s.now }
{
    let end = 4 * (s.len() - h);
    let mut n = 0;
    let mut k = 0;
    // No `for`: each turn goes on by what it has read.
    while k < end {
        let c = slot_at(s, h, k);
        n += one_if(c);
        k += stride(s, h, k);
    }
    n
}

// The status of a slot that is not 0: a load knows no time, and takes Active for Aborted.
pub fn loaded_status(c: u8) -> Status
    ensures { result ≡ loaded_status c }
{
    match c {
        2 => Status::Committed(CommitTime(0)),
        _ => Status::Aborted,
    }
}

// The table with the entry of a slot after its last, if the slot is not 0.
fn push_slot(t: Table, id: u64, c: u8) -> Table
    requires { t.count + length (entry_of id c) ≤ 256 }
    ensures { result ≡ push_all t (entry_of id c) }
{
    if c == 0 {
        return t;
    }
    let n = t.count;
    let mut a = t.entries;
    a[n] = Entry {
        id: TransactionId(id),
        status: loaded_status(c),
    };
    Table {
        entries: a,
        count: n + 1,
    }
}

// The entries of the slots that are not 0.
fn list_in(s: &[u8], h: usize, base: u64) -> Table
    requires { (h ≤ length s.now) × (length s.now ≤ 1048576) × (base ≤ 2 ^ 63) × (length (entries_in h base s.now) ≤ 256) }
    ensures { result ≡ laid (empty_table 256) (entries_in h base s.now) }
{
    let end = 4 * (s.len() - h);
    let mut t = table::empty();
    let mut k = 0;
    // No `for`: each turn goes on by what it has read.
    while k < end {
        let c = slot_at(s, h, k);
        t = push_slot(t, base + k as u64, c);
        k += stride(s, h, k);
    }
    t
}

// Active becomes Aborted in the bytes.
fn settle(body: &mut [u8])
    ensures { body.new ≡ map settled_byte body.old }
{
    for b in body.iter_mut() {
        *b = settled_byte(*b);
    }
}

pub fn load_in(clog: &mut [u8], len: usize, h: usize, base: u32) -> Result<Table, Refusal>
    ensures { load_outcome (loaded_of len result) clog.new ≡ loaded 256 h base (file_of clog.old len) }
{
    check_load(clog, len, h)?;
    let t = list_in(&clog[..len], h, base as u64);
    settle(&mut clog[h..len]);
    Ok(t)
}

pub fn load(clog: &mut [u8], len: usize) -> Result<Table, Refusal>
    ensures { load_outcome (loaded_of len result) clog.new ≡ loaded 256 8 0 (file_of clog.old len) }
{
    load_in(clog, len, numbers::HEADER, 0)
}

// What load would give, with no byte changed.
pub fn read(clog: &[u8], len: usize) -> Result<Table, Refusal>
    ensures { seen (loaded_of len result) ≡ seen_of (loaded 256 8 0 (file_of clog.now len)) }
{
    check_load(clog, len, numbers::HEADER)?;
    let t = list_in(&clog[..len], numbers::HEADER, 0);
    Ok(t)
}
