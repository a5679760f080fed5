// A clog gone over with its zero bytes passed eight at a time: its entries listed in rows, specs/Sweeps.antt, and Active become Aborted in the file.
// Every public function is total: its contract is one equation.
#![tactic(auto)]

ghost use Rattle.std.specs.Prelude.{◌≡◌, map, ◌+◌, ◌≤◌, ◌<◌, ◌^◌, length, take, drop};
ghost use Rattle.std.proofs.lemmas.List.Edits.{sets};
ghost use Rattle.fields.specs.Files.{file_of};
ghost use Rattle.rows.specs.Rows.{rowed, rowed_as, set_all};
ghost use Rattle.clog.specs.Slots.{entry_of, entries_in, loaded_status, settled_code, settled_byte, settled};
ghost use Rattle.sweeps.specs.Sweeps.{listed};
ghost use Rattle.sweeps.specs.Inside.{free, busy_from, in_byte, next_from};

use fields::{Refusal, TransactionId, numbers};
use rows::Filled;
use table::Status;

// ---- zero bytes

// Whether eight bytes stand from i on, and all are 0.
#[tactic(auto, unfolding(crate::specs::Inside::free))]
fn is_free(s: &[u8], i: usize) -> bool
    ensures { result ≡ free s.now i }
{
    8 <= s.len() && i <= s.len() - 8 && fields::get_u64(s, i) == 0
}

// The first place from `at` on that no eight zero bytes begin at, if one goes on by eight.
fn past_free(s: &[u8], at: usize) -> usize
    requires { at ≤ length s.now }
    ensures { (at ≤ result) × (result ≤ length s.now) × (busy_from s.now result ≡ busy_from s.now at) }
{
    let mut i = at;
    // No `for`: it goes on by eight, as long as what it reads is free.
    while is_free(s, i) {
        i += 8;
    }
    i
}

// The first place from `at` on whose byte is not 0, or the length.
fn next_busy(s: &[u8], at: usize) -> usize
    requires { at ≤ length s.now }
    ensures { result ≡ busy_from s.now at }
{
    // By the index: with the zeros of the rest counted by take_while, settling a clog was a sixth slower.
    let n = s.len();
    for i in past_free(s, at)..n {
        if s[i] != 0 {
            return i;
        }
    }
    n
}

// ---- the entries listed

// The entry of a slot set, if the slot is not 0.
fn note_slot(rows: &mut [[u64; 3]; 256], h: Filled, id: u64, c: u8) -> Filled
    ensures { rowed result rows.new ≡ set_all 256 (rowed h rows.old) (entry_of id c) }
{
    if c == 0 {
        return h;
    }
    let status = clog::loaded_status(c);
    rows::hold(rows, h, TransactionId(id), status)
}

// The entries of a byte set, the first slot of which is that of the id.
fn note_byte(rows: &mut [[u64; 3]; 256], h: Filled, id: u64, b: u8) -> Filled
    requires { id < 2 ^ 63 }
    ensures { rowed result rows.new ≡ set_all 256 (rowed h rows.old) (in_byte id b) }
{
    let h0 = note_slot(rows, h, id, b / 1 % 4);
    let h1 = note_slot(rows, h0, id + 1, b / 4 % 4);
    let h2 = note_slot(rows, h1, id + 2, b / 16 % 4);
    note_slot(rows, h2, id + 3, b / 64 % 4)
}

// Where to go on after the byte i. Once an entry was refused no other can be set: the pass ends.
fn next_place(s: &[u8], i: usize, number: u8) -> usize
    requires { i < length s.now }
    ensures { result ≡ next_from s.now i number }
{
    if number != numbers::ACCEPTED {
        return s.len();
    }
    next_busy(s, i + 1)
}

fn list_in(s: &[u8], rows: &mut [[u64; 3]; 256]) -> Filled
    requires { (8 ≤ length s.now) × (length s.now ≤ 1048576) }
    ensures { rowed result rows.new ≡ set_all 256 (rowed_as 0 0 rows.old) (entries_in 8 0 s.now) }
{
    let n = s.len();
    let mut h = Filled {
        number: numbers::ACCEPTED,
        count: 0,
    };
    let mut i = next_busy(s, numbers::HEADER);
    // No `for`: each turn goes on by what it has read.
    while i < n {
        let id = (4 * (i - numbers::HEADER)) as u64;
        h = note_byte(rows, h, id, s[i]);
        i = next_place(s, i, h.number);
    }
    h
}

pub fn list(clog: &[u8], len: usize, rows: &mut [[u64; 3]; 256]) -> Filled
    ensures { rowed result rows.new ≡ listed rows.old (file_of clog.now len) }
{
    if fields::is_unfit(numbers::CLOG_LIMIT, clog.len(), len) {
        return Filled {
            number: Refusal::Unfit.number(),
            count: 0,
        };
    }
    let s = &clog[..len];
    if !fields::begins(b"AEROCLG1", s) {
        return Filled {
            number: numbers::ACCEPTED,
            count: 0,
        };
    }
    list_in(s, rows)
}

// ---- Active becomes Aborted

fn settle_in(clog: &mut [u8], len: usize)
    requires { (8 ≤ len) × (len ≤ length clog.old) }
    ensures { clog.new ≡ sets clog.old 8 (map settled_byte (drop 8 (take len clog.old))) }
{
    let mut i = next_busy(&clog[..len], numbers::HEADER);
    // No `for`: each turn goes on by what it has read.
    while i < len {
        let b = clog::settled_byte(clog[i]);
        clog[i] = b;
        i = next_busy(&clog[..len], i + 1);
    }
}

// In the bytes after the header, of a clog of that length. Past the buffer there is nothing.
pub fn settle(clog: &mut [u8], len: usize)
    ensures { clog.new ≡ (settled 8 (file_of clog.old len)).bytes }
{
    let n = len.min(clog.len());
    if numbers::HEADER <= n {
        settle_in(clog, n);
    }
}
