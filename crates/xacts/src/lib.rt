// Status pages as PostgreSQL keeps them in its folder pg_xact: a clog's body written out under a mark, and pages read back into a body. Both calls are
// total; each contract is one equation with a definition of specs/Calls.antt. Each goes over its input twice: once to test it, so that a refusal changes
// nothing, and once to write; in a pass each byte is looked at once, whatever its slots are.
#![tactic(auto)]

ghost use Rattle.std.specs.Prelude.{◌≡◌, cond, ◌-◌, ◌≤◌, ◌<◌, length, drop};
ghost use Rattle.std.proofs.lemmas.List.Edits.{sets};
ghost use Rattle.fields.specs.Files.{file_of};
ghost use Rattle.fields.specs.Refusals.{number_of, number_in};
ghost use Rattle.fields.specs.Answers.{outcome};
ghost use Rattle.clog.specs.Slots.{codes};
ghost use Rattle.xacts.specs.Pages.{written_as, read_as, byte_of, byte_made, remade, whole_pages, body_from};
ghost use Rattle.xacts.specs.Calls.{has, write_no, read_no, written, read_back};
ghost use Rattle.xacts.specs.Inside.{four_of};

use fields::{Refusal, TransactionId, numbers};

// A clog's slots.
const ACTIVE: u8 = 1;

const COMMITTED: u8 = 2;

const ABORTED: u8 = 3;

// A page's slots.
const PAGE_COMMITTED: u8 = 1;

const PAGE_ABORTED: u8 = 2;

const PAGE_SUB_COMMITTED: u8 = 3;

// No status, in both.
const NOTHING: u8 = 0;

// ---- one slot, and the four of a byte: by division and remainder

fn written_as(mark: u64, id: u64, c: u8) -> u8
    ensures { (result ≡ written_as mark id c) × (result < 4) }
{
    if id < mark {
        return PAGE_COMMITTED;
    }
    match c {
        COMMITTED => PAGE_COMMITTED,
        ABORTED => PAGE_ABORTED,
        _ => NOTHING,
    }
}

fn read_as(c: u8) -> u8
    ensures { (result ≡ read_as c) × (result < 4) }
{
    match c {
        PAGE_COMMITTED => COMMITTED,
        PAGE_ABORTED => ABORTED,
        _ => NOTHING,
    }
}

// The byte of four slots, written or read.
fn byte_of(c0: u8, c1: u8, c2: u8, c3: u8) -> u8
    requires { (c0 < 4) × (c1 < 4) × (c2 < 4) × (c3 < 4) }
    ensures { result ≡ byte_of c0 c1 c2 c3 }
{
    c0 + 4 * c1 + 16 * c2 + 64 * c3
}

// The byte of a page for a body's byte whose first slot is that of the id.
fn written_byte(mark: u64, id: u64, b: u8) -> u8
    requires { id ≤ 4194304 }
    ensures { result ≡ byte_made (written_as mark) id b }
{
    let c0 = written_as(mark, id, b % 4);
    let c1 = written_as(mark, id + 1, b / 4 % 4);
    let c2 = written_as(mark, id + 2, b / 16 % 4);
    let c3 = written_as(mark, id + 3, b / 64 % 4);
    byte_of(c0, c1, c2, c3)
}

fn read_byte(b: u8) -> u8
    ensures { result ≡ byte_made (λ t c. read_as c) 0 b }
{
    let c0 = read_as(b % 4);
    let c1 = read_as(b / 4 % 4);
    let c2 = read_as(b / 16 % 4);
    let c3 = read_as(b / 64 % 4);
    byte_of(c0, c1, c2, c3)
}

// ---- whether a slot is c

// A slot of the byte that is not among its first w is c.
fn byte_has(c: u8, w: u64, b: u8) -> bool
    ensures { result ≡ has c (drop w (four_of b)) }
{
    w <= 3 && b / 64 % 4 == c
        || w <= 2 && b / 16 % 4 == c
        || w <= 1 && b / 4 % 4 == c
        || w == 0 && b % 4 == c
}

// A slot that is not among the first w is c: Active at or above the mark, or a 3 anywhere. The slots of the next byte are four further on.
fn has_slot(c: u8, w: u64, s: &[u8]) -> bool
    ensures { result ≡ has c (drop w (codes s.now)) }
{
    let mut left = w;
    for b in s {
        if byte_has(c, left, *b) {
            return true;
        }
        left = left.saturating_sub(4);
    }
    false
}

// ---- the refusals

// The refusal where the test holds.
fn refuse_if(test: bool, refusal: Refusal) -> Result<(), Refusal>
    ensures { number_in result ≡ cond test (number_of refusal) 0 }
{
    if test { Err(refusal) } else { Ok(()) }
}

fn whole_pages(n: usize) -> usize
    requires { n ≤ 1048576 }
    ensures { result ≡ whole_pages 8192 n }
{
    n.next_multiple_of(numbers::STATUS_PAGE)
}

fn check_write(clog: &[u8], len: usize, mark: u64, size: usize) -> Result<(), Refusal>
    ensures { number_in result ≡ write_no 8192 mark (file_of clog.now len) size }
{
    if clog::bad_length(numbers::HEADER, clog.len(), len) {
        return Err(Refusal::Unfit);
    }
    let active = has_slot(ACTIVE, mark, &clog[numbers::HEADER..len]);
    let short = size < whole_pages(len - numbers::HEADER);
    refuse_if(active, Refusal::ActiveAbove)?;
    refuse_if(short, Refusal::SliceShort)
}

fn check_read(pages: &[u8], size: usize) -> Result<(), Refusal>
    ensures { number_in result ≡ read_no 8192 pages.now size }
{
    refuse_if(pages.len() % numbers::STATUS_PAGE != 0, Refusal::PartOfPage)?;
    let sub_committed = has_slot(PAGE_SUB_COMMITTED, 0, pages);
    refuse_if(sub_committed, Refusal::SubCommitted)?;
    refuse_if(size < pages.len(), Refusal::SliceShort)
}

// ---- the passes that write

fn write_body(body: &[u8], mark: u64, out: &mut [u8])
    requires { (length body.now ≤ 1048576) × (length body.now ≤ length out.old) }
    ensures { out.new ≡ sets out.old 0 (remade (written_as mark) 0 body.now) }
{
    for (i, b) in body.iter().enumerate() {
        out[i] = written_byte(mark, 4 * i as u64, *b);
    }
}

fn read_body(pages: &[u8], out: &mut [u8])
    requires { length pages.now ≤ length out.old }
    ensures { out.new ≡ sets out.old 0 (body_from pages.now) }
{
    for (i, b) in pages.iter().enumerate() {
        out[i] = read_byte(*b);
    }
}

// ---- the two calls

// The clog's body as whole pages over the output's front; it gives their length.
pub fn write_pages(
    clog: &[u8],
    len: usize,
    mark: TransactionId,
    out: &mut [u8],
) -> Result<usize, Refusal>
    ensures { outcome result out.new ≡ written 8192 mark.0 (file_of clog.now len) out.old }
{
    check_write(clog, len, mark.0, out.len())?;
    let n = len - numbers::HEADER;
    let end = whole_pages(n);
    write_body(&clog[numbers::HEADER..len], mark.0, out);
    fields::zero_fill(out, n, end);
    Ok(end)
}

// Whole pages as a body over the output's front; it gives its length, which is the pages'.
pub fn read_pages(pages: &[u8], out: &mut [u8]) -> Result<usize, Refusal>
    ensures { outcome result out.new ≡ read_back 8192 pages.now out.old }
{
    check_read(pages, out.len())?;
    read_body(pages, out);
    Ok(pages.len())
}
