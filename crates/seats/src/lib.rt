// Resident pages and touched pages where they stand: two lent arrays of 64 numbers, of which the first n are held. What seating and marking a page do is what
// crate frames says of its values; here the arrays are changed in place. No function trusts the count that it is given.
#![tactic(auto)]

ghost use Rattle.std.specs.Prelude.{◌≡◌, ◌≤◌, min, length, take};
ghost use Rattle.std.proofs.lemmas.List.Edits.{sets};
ghost use Rattle.frames.specs.Pages.{is_in, ascending, any_bad, frame_count, found_in, place_told, seated, marked, touched_formed};
ghost use Rattle.frames.specs.Inside.{below_in};
ghost use Rattle.seats.specs.Seats.{frames_in, touched_in, seat_kept, mark_kept, kept_in, seated_by, marked_by};

use fields::{Refusal, arrays, numbers};

// The most frames, and the most touched pages.
const LIMIT: usize = 64;

fn held(count: usize) -> usize
    ensures { result ≡ min count 64 }
{
    count.min(LIMIT)
}

// How many frames a frame buffer of this size has.
fn frame_count(size: usize) -> usize
    ensures { result ≡ frame_count 64 4096 size }
{
    (size / numbers::PAGE_SIZE).min(LIMIT)
}

// ---- resident pages

// The loop has no early way out, so that several pages are compared at once.
fn is_in(resident: &[u32], page: u32) -> bool
    ensures { result ≡ is_in page resident.now }
{
    let mut found = false;
    for x in resident {
        found |= *x == page;
    }
    found
}

// The slot of a resident page.
pub fn find(resident: &[u32; 64], n: usize, page: u32) -> Option<usize>
    ensures { place_told result ≡ found_in page (take n resident.now) }
{
    let m = held(n);
    for (slot, x) in resident[..m].iter().enumerate() {
        if *x == page {
            return Some(slot);
        }
    }
    None
}

// What `seat` answers; nothing is changed.
pub fn check_seat(resident: &[u32; 64], n: usize, size: usize, page: u32) -> Result<usize, Refusal>
    ensures { kept_in n result ≡ seat_kept (seated 64 4096 (frames_in resident.now n) size page) }
{
    let m = held(n);
    if is_in(&resident[..m], page) {
        return Ok(n);
    }
    if frame_count(size) <= m {
        return Err(Refusal::FramesFull);
    }
    Ok(m + 1)
}

// A page keeps its frame; a new one takes the next: the count after it, or a refusal and nothing changed.
pub fn seat(resident: &mut [u32; 64], n: usize, size: usize, page: u32) -> Result<usize, Refusal>
    ensures { seated_by n result resident.new ≡ seated 64 4096 (frames_in resident.old n) size page }
{
    let m = held(n);
    if is_in(&resident[..m], page) {
        return Ok(n);
    }
    if frame_count(size) <= m {
        return Err(Refusal::FramesFull);
    }
    resident[m] = page;
    Ok(m + 1)
}

// ---- touched pages

// How many pages come before the first that is not below this one.
fn place(touched: &[u64], page: u64) -> usize
    ensures is { result ≡ below_in page touched.now }
    ensures bound { result ≤ length touched.now }
{
    for (i, x) in touched.iter().enumerate() {
        if page <= *x {
            return i;
        }
    }
    touched.len()
}

// What `mark` answers; nothing is changed.
pub fn check_mark(touched: &[u64; 64], n: usize, page: u32) -> Result<usize, Refusal>
    ensures { kept_in n result ≡ mark_kept (marked 64 (touched_in touched.now n) page) }
{
    let x = page as u64;
    let m = held(n);
    let p = place(&touched[..m], x);
    if p < m && touched[p] == x {
        return Ok(m);
    }
    if LIMIT <= m {
        return Err(Refusal::TouchedFull);
    }
    Ok(m + 1)
}

// The page at its place, each once: the count after it, or a refusal and nothing changed.
pub fn mark(touched: &mut [u64; 64], n: usize, page: u32) -> Result<usize, Refusal>
    ensures { marked_by n result touched.new ≡ marked 64 (touched_in touched.old n) page }
{
    let x = page as u64;
    let m = held(n);
    let p = place(&touched[..m], x);
    if p < m && touched[p] == x {
        return Ok(m);
    }
    if LIMIT <= m {
        return Err(Refusal::TouchedFull);
    }
    arrays::shift_in(&mut touched[p..m + 1], x);
    Ok(m + 1)
}

// ---- a list of pages that is handed in

fn is_climbing(pages: &[u32]) -> bool
    ensures { result ≡ ascending pages.now }
{
    pages.is_sorted_by(|x, y| *x < *y)
}

fn any_bad(pages: &[u32]) -> bool
    ensures { result ≡ any_bad pages.now }
{
    for page in pages {
        if numbers::NO_PAGE <= *page {
            return true;
        }
    }
    false
}

// Whether all of them are touched pages in form.
pub fn list_formed(pages: &[u32]) -> bool
    ensures { result ≡ touched_formed 64 (touched_in pages.now (length pages.now)) }
{
    pages.len() <= LIMIT && is_climbing(pages) && !any_bad(pages)
}

// The list over the front of the array; what there is no place for is left out.
pub fn lay(touched: &mut [u64; 64], pages: &[u32])
    ensures { touched.new ≡ sets touched.old 0 pages.now }
{
    for i in 0..held(pages.len()) {
        touched[i] = u64::from(pages[i]);
    }
}
