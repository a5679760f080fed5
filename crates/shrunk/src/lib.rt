// The second form of a clog, which leaves out the slots below a base: a clog moved there and back between lent slices, and record, compact and load in a file of
// that form. Every public function is total; its contract is one equation with a definition of specs/Calls.antt. A store opens the old form only: an opening that
// is given the second one finds another magic and resets it, and the statuses are gone.
#![tactic(auto)]

ghost use Rattle.std.specs.Prelude.{◌≡◌, false, ◌+◌, ◌*◌, ◌/◌, ◌%◌, ◌≤◌, min, length};
ghost use Rattle.std.proofs.lemmas.List.Edits.{sets};
ghost use Rattle.fields.specs.Files.{file_of};
ghost use Rattle.fields.specs.Refusals.{number_in};
ghost use Rattle.fields.specs.Answers.{outcome};
ghost use Rattle.clog.specs.Slots.{code_of};
ghost use Rattle.clog.specs.Calls.{loaded_of, load_outcome};
ghost use Rattle.shrunk.specs.Form.{second_header, base_of, misfits, any_nonzero};
ghost use Rattle.shrunk.specs.Calls.{second_no, form_no, first_no, moved_second, moved_first, recorded_second, compacted_second, loaded_second};
ghost use Rattle.shrunk.specs.Inside.{bad_base};

use fields::{Refusal, TransactionId, numbers};
use table::{Status, Table};

const VERSION: u8 = 2;

// ---- what is read of a file of the second form

fn bad_base(base: u64) -> bool
    ensures { result ≡ bad_base base }
{
    base % 4 != 0 || numbers::BASE_LIMIT < base
}

fn is_misfit(s: &[u8]) -> bool
    ensures { result ≡ misfits s.now }
{
    s.len() < numbers::SECOND_HEADER
        || 4 + fields::get_big_u32(s, 0) as usize != s.len()
        || s[4] != VERSION
        || bad_base(fields::get_big_u64(s, 5))
}

// The tests that every call on a file of the second form makes first.
fn check_form(second: &[u8], len: usize) -> Result<(), Refusal>
    ensures { number_in result ≡ form_no (file_of second.now len) 0 }
{
    if fields::is_unfit(numbers::CLOG_LIMIT, second.len(), len) {
        return Err(Refusal::Unfit);
    }
    if is_misfit(&second[..len]) {
        return Err(Refusal::BadForm);
    }
    Ok(())
}

// A base within its limit has 32 bits.
fn base_in(s: &[u8]) -> u32
    requires { misfits s.now ≡ false }
    ensures { (result ≡ base_of s.now) × (result ≤ 4194272) × (result % 4 ≡ 0) }
{
    fields::get_big_u64(s, 5) as u32
}

// ---- from the old form to the second

fn any_nonzero(s: &[u8]) -> bool
    ensures { result ≡ any_nonzero s.now }
{
    s.iter().any(|b| *b != 0)
}

// The base under a mark, for a body of n bytes.
fn base_under(mark: u64, n: usize) -> u64
    requires { n ≤ 1048576 }
    ensures { result ≡ min (mark / 4 * 4) (4 * n) }
{
    let rounded = mark / 4 * 4;
    let whole = 4 * n as u64;
    rounded.min(whole)
}

// Where the packed bytes stand in the old form: a byte for each four ids after its magic.
fn packed_at(base: u64) -> usize
    requires { base ≤ 4194304 }
    ensures { result ≡ 8 + base / 4 }
{
    numbers::HEADER + (base / 4) as usize
}

fn check_second(clog: &[u8], len: usize, mark: u64, size: usize) -> Result<(), Refusal>
    ensures { number_in result ≡ second_no mark (file_of clog.now len) size }
{
    if clog::bad_length(numbers::HEADER, clog.len(), len) {
        return Err(Refusal::Unfit);
    }
    if !fields::begins(b"AEROCLG1", &clog[..len]) {
        return Err(Refusal::BadForm);
    }
    let base = base_under(mark, len - numbers::HEADER);
    let from = packed_at(base);
    if any_nonzero(&clog[numbers::HEADER..from]) {
        return Err(Refusal::SlotBelowBase);
    }
    if size < numbers::SECOND_HEADER + (len - from) {
        return Err(Refusal::SliceShort);
    }
    Ok(())
}

fn put_header(out: &mut [u8], base: u64, n: usize)
    requires { (13 ≤ length out.old) × (n ≤ 1048576) }
    ensures { out.new ≡ sets out.old 0 (second_header base n) }
{
    fields::put_big_u32(out, 0, (9 + n) as u32);
    out[4] = VERSION;
    fields::put_big_u64(out, 5, base);
}

pub fn to_second(
    clog: &[u8],
    len: usize,
    mark: TransactionId,
    out: &mut [u8],
) -> Result<usize, Refusal>
    ensures { outcome result out.new ≡ moved_second mark.0 (file_of clog.now len) out.old }
{
    check_second(clog, len, mark.0, out.len())?;
    let base = base_under(mark.0, len - numbers::HEADER);
    let from = packed_at(base);
    let n = len - from;
    put_header(out, base, n);
    fields::lay(out, numbers::SECOND_HEADER, &clog[from..len]);
    Ok(numbers::SECOND_HEADER + n)
}

// ---- from the second form to the old one

fn check_first(second: &[u8], len: usize, size: usize) -> Result<(), Refusal>
    ensures { number_in result ≡ first_no (file_of second.now len) size }
{
    check_form(second, len)?;
    let base = base_in(&second[..len]);
    let n = packed_at(base as u64) + (len - numbers::SECOND_HEADER);
    if numbers::CLOG_LIMIT.min(size) < n {
        return Err(Refusal::SliceShort);
    }
    Ok(())
}

pub fn to_first(second: &[u8], len: usize, out: &mut [u8]) -> Result<usize, Refusal>
    ensures { outcome result out.new ≡ moved_first (file_of second.now len) out.old }
{
    check_first(second, len, out.len())?;
    let base = base_in(&second[..len]);
    let from = packed_at(base as u64);
    fields::lay(out, 0, b"AEROCLG1");
    fields::zero_fill(out, numbers::HEADER, from);
    fields::lay(out, from, &second[numbers::SECOND_HEADER..len]);
    Ok(from + (len - numbers::SECOND_HEADER))
}

// ---- in the second form

// A refused record changes nothing; an accepted one may have lengthened the file, which then states its new length.
pub fn record(
    second: &mut [u8],
    len: usize,
    id: TransactionId,
    status: Status,
) -> Result<usize, Refusal>
    ensures { outcome result second.new ≡ recorded_second (file_of second.old len) id.0 (code_of status) }
{
    check_form(second, len)?;
    let base = base_in(&second[..len]);
    let n = clog::record_in(second, len, numbers::SECOND_HEADER, base, id, status)?;
    fields::put_big_u32(second, 0, (n - 4) as u32);
    Ok(n)
}

pub fn compact(second: &mut [u8], len: usize, below: TransactionId) -> Result<usize, Refusal>
    ensures { outcome result second.new ≡ compacted_second (file_of second.old len) below.0 }
{
    check_form(second, len)?;
    let base = base_in(&second[..len]);
    clog::compact_in(second, len, numbers::SECOND_HEADER, base, below)
}

pub fn load(second: &mut [u8], len: usize) -> Result<Table, Refusal>
    ensures { load_outcome (loaded_of len result) second.new ≡ loaded_second 256 (file_of second.old len) }
{
    check_form(second, len)?;
    let base = base_in(&second[..len]);
    clog::load_in(second, len, numbers::SECOND_HEADER, base)
}
