// Page 0 and the format check: which counters a database keeps, and whether its version is one of ours. The bytes are told in specs/Page.antt.
// Every public function is total, and its contract is an equation with a definition of that file.
#![tactic(auto)]

ghost use Rattle.std.specs.Prelude.{◌≡◌};
ghost use Rattle.std.proofs.lemmas.List.Edits.{sets};
ghost use Rattle.fields.specs.Files.{file_of};
ghost use Rattle.fields.specs.Refusals.{number_in};
ghost use Rattle.meta.specs.Page.{meta_page, has_meta, format_no, meta_in, stored_told};

use fields::{CommitTime, Refusal, TransactionId, numbers};

// The version that is written.
const VERSION: u32 = 2;

// The counters that page 0 keeps: next id, next commit time, frozen mark.
#[derive(Clone, Copy, Debug, PartialEq, Eq)]
pub struct Counters {
    pub next: TransactionId,
    pub time: CommitTime,
    pub mark: TransactionId,
}

// Whether page 0 is whole and has the magic. No byte past the length is looked at.
fn has_meta(s: &[u8]) -> bool
    ensures { result ≡ has_meta 4096 s.now }
{
    numbers::PAGE_SIZE <= s.len() && fields::begins(b"AERODBM1", s)
}

// Whether a database as found may be opened: refused as unfit, or for its version.
pub fn check_format(db: &[u8], len: usize) -> Result<(), Refusal>
    ensures { number_in result ≡ format_no 4096 (file_of db.now len) }
{
    if fields::is_unfit(numbers::BUFFER_LIMIT, db.len(), len) {
        return Err(Refusal::Unfit);
    }
    let s = &db[..len];
    if !has_meta(s) {
        return Ok(());
    }
    match fields::get_u32(s, 32) {
        0 | VERSION => Ok(()),
        _ => Err(Refusal::BadVersion),
    }
}

// The counters of page 0, whatever its version; none where there is no meta page.
pub fn read_meta(db: &[u8], len: usize) -> Result<Option<Counters>, Refusal>
    ensures { stored_told result ≡ meta_in 4096 (file_of db.now len) }
{
    if fields::is_unfit(numbers::BUFFER_LIMIT, db.len(), len) {
        return Err(Refusal::Unfit);
    }
    let s = &db[..len];
    if !has_meta(s) {
        return Ok(None);
    }
    let next = TransactionId(fields::get_u64(s, 8));
    let time = CommitTime(fields::get_u64(s, 16));
    let mark = TransactionId(fields::get_u64(s, 24));
    Ok(Some(Counters { next, time, mark }))
}

// Page 0 over the front of b, field by field.
fn put_page(b: &mut [u8], next: u64, time: u64, mark: u64)
    ensures { b.new ≡ sets b.old 0 (meta_page 4096 next time mark) }
{
    fields::copy(b, b"AERODBM1");
    fields::put_u64(b, 8, next);
    fields::put_u64(b, 16, time);
    fields::put_u64(b, 24, mark);
    fields::put_u32(b, 32, VERSION);
    fields::zero_fill(b, 36, numbers::PAGE_SIZE);
}

// Page 0 from `at` on. The part of the buffer from there on is lent, so that no field's place is a sum that could overflow.
pub fn put_meta(buf: &mut [u8], at: usize, m: Counters)
    ensures { buf.new ≡ sets buf.old at (meta_page 4096 m.next.0 m.time.0 m.mark.0) }
{
    if buf.len() < at {
        return;
    }
    put_page(&mut buf[at..], m.next.0, m.time.0, m.mark.0);
}
