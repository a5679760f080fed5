// Resident pages and their frames, the pages that a transaction touched, and page bytes copied between the database and the frames.
// A page's frame is the part of the frame buffer from its slot times 4,096 on; its slot is its index in the list of resident pages.
// Values go in by value and come back. Every public function is total: its contract is an equation with a definition of specs/.
#![tactic(auto)]

ghost use Rattle.std.specs.Prelude.{◌≡◌, ◌≤◌, ◌*◌, min, length, take, drop};
ghost use Rattle.std.proofs.lemmas.List.Edits.{sets};
ghost use Rattle.fields.specs.Bytes.{part};
ghost use Rattle.fields.specs.Files.{file_of};
ghost use Rattle.frames.specs.Pages.{is_in, distinct, ascending, any_bad, resident_of, touched_of, empty_frames, empty_touched, frame_count, frames_formed, touched_formed, found_in, place_told, seated_of, seated, marked_of, marked};
ghost use Rattle.frames.specs.Inside.{below_in};
ghost use Rattle.frames.specs.Copies.{page_of};

use fields::{Refusal, TransactionId, arrays, numbers};

// The most frames, and the most touched pages.
const LIMIT: usize = 64;

// The resident pages: page i of the first count stands in frame i.
#[derive(Clone, Copy)]
pub struct Frames {
    pub pages: [u32; 64],
    pub count: usize,
}

// The pages that a transaction touched, ascending.
#[derive(Clone, Copy)]
pub struct Touched {
    pub pages: [u32; 64],
    pub count: usize,
}

#[derive(Clone, Copy)]
pub struct Transaction {
    pub id: TransactionId,
    pub touched: Touched,
}

pub fn no_frames() -> Frames
    ensures { result ≡ empty_frames 64 }
{
    Frames {
        pages: [0; 64],
        count: 0,
    }
}

pub fn no_pages() -> Touched
    ensures { result ≡ empty_touched 64 }
{
    Touched {
        pages: [0; 64],
        count: 0,
    }
}

// The pages that are held: as many as the count says, and no more than the array has. No function trusts the count of a value that it is given.
fn held(pages: &[u32; 64], count: usize) -> &[u32]
    ensures list { result.now ≡ take count pages.now }
    ensures len { length result.now ≡ min count 64 }
{
    let n = count.min(LIMIT);
    &pages[..n]
}

// How many frames a frame buffer of this size has.
fn frame_count(size: usize) -> usize
    ensures { result ≡ frame_count 64 4096 size }
{
    (size / numbers::PAGE_SIZE).min(LIMIT)
}

// ---- lists of page numbers

// Whether the page stands among these, from `from` on. The loop has no early way out, so that several pages are compared at once.
fn is_in(pages: &[u32], from: usize, page: u32) -> bool
    ensures { result ≡ is_in page (drop from pages.now) }
{
    let mut found = false;
    for x in &pages[from.min(pages.len())..] {
        found |= *x == page;
    }
    found
}

fn are_distinct(pages: &[u32]) -> bool
    ensures { result ≡ distinct pages.now }
{
    for (i, page) in pages.iter().enumerate() {
        if is_in(pages, i + 1, *page) {
            return false;
        }
    }
    true
}

fn are_ascending(pages: &[u32]) -> bool
    ensures { result ≡ ascending pages.now }
{
    pages.is_sorted_by(|x, y| *x < *y)
}

fn any_bad(pages: &[u32]) -> bool
    ensures { result ≡ any_bad pages.now }
{
    for page in pages {
        if numbers::NO_PAGE <= *page {
            return true;
        }
    }
    false
}

// ---- resident pages

// Whether the frames are in form, for a frame buffer of this size.
pub fn frames_formed(f: Frames, size: usize) -> bool
    ensures { result ≡ frames_formed 64 4096 f size }
{
    let pages = held(&f.pages, f.count);
    f.count <= frame_count(size) && are_distinct(pages) && !any_bad(pages)
}

// The slot of a resident page.
pub fn find(f: Frames, page: u32) -> Option<usize>
    ensures { place_told result ≡ found_in page (resident_of f) }
{
    for (slot, x) in held(&f.pages, f.count).iter().enumerate() {
        if *x == page {
            return Some(slot);
        }
    }
    None
}

// A page keeps its frame; a new one takes the next.
pub fn seat(f: Frames, size: usize, page: u32) -> Result<Frames, Refusal>
    ensures { seated_of f result ≡ seated 64 4096 f size page }
{
    let list = held(&f.pages, f.count);
    let n = list.len();
    if is_in(list, 0, page) {
        return Ok(f);
    }
    if frame_count(size) <= n {
        return Err(Refusal::FramesFull);
    }
    let mut pages = f.pages;
    pages[n] = page;
    Ok(Frames {
        pages,
        count: n + 1,
    })
}

// ---- touched pages

// Whether the touched pages are in form.
pub fn touched_formed(t: Touched) -> bool
    ensures { result ≡ touched_formed 64 t }
{
    let pages = held(&t.pages, t.count);
    t.count <= LIMIT && are_ascending(pages) && !any_bad(pages)
}

pub fn is_marked(t: Touched, page: u32) -> bool
    ensures { result ≡ is_in page (touched_of t) }
{
    is_in(held(&t.pages, t.count), 0, page)
}

// How many pages come before the first that is not below this one.
fn count_below(pages: &[u32], page: u32) -> usize
    ensures is { result ≡ below_in page pages.now }
    ensures bound { result ≤ length pages.now }
{
    for (i, x) in pages.iter().enumerate() {
        if page <= *x {
            return i;
        }
    }
    pages.len()
}

// The page at its place, each once.
pub fn mark(t: Touched, page: u32) -> Result<Touched, Refusal>
    ensures { marked_of t result ≡ marked 64 t page }
{
    let list = held(&t.pages, t.count);
    let n = list.len();
    let p = count_below(list, page);
    let mut pages = t.pages;
    if p < n && pages[p] == page {
        return Ok(Touched { pages, count: n });
    }
    if LIMIT <= n {
        return Err(Refusal::TouchedFull);
    }
    arrays::shift_in(&mut pages[p..n + 1], page);
    Ok(Touched {
        pages,
        count: n + 1,
    })
}

// ---- page bytes

// A page's worth of src from `at` on, over the front of b; zeros for what lies past the end of src.
fn fill_part(b: &mut [u8], src: &[u8], at: usize)
    ensures { b.new ≡ sets b.old 0 (part 4096 src.now at) }
{
    if src.len() <= at {
        fields::zero_fill(b, 0, numbers::PAGE_SIZE);
        return;
    }
    let n = src.len() - at;
    if n < numbers::PAGE_SIZE {
        fields::copy(b, &src[at..]);
        fields::zero_fill(b, n, numbers::PAGE_SIZE);
        return;
    }
    fields::copy(b, &src[at..at + numbers::PAGE_SIZE]);
}

// The file's page over the front of b, or zeros. A tail of less than a page is no page.
fn fill_page(b: &mut [u8], db: &[u8], len: usize, page: u32)
    ensures { b.new ≡ sets b.old 0 (page_of 4096 (file_of db.now len) page) }
{
    let p = page as usize;
    if p < len / numbers::PAGE_SIZE {
        fill_part(b, db, p * numbers::PAGE_SIZE);
        return;
    }
    fields::zero_fill(b, 0, numbers::PAGE_SIZE);
}

// The bytes of a frame over the front of b; zeros for a slot past the end. Whether it is past is tested before its place is worked out, which could overflow.
pub fn copy_frame(b: &mut [u8], buf: &[u8], slot: usize)
    ensures { b.new ≡ sets b.old 0 (part 4096 buf.now (slot * 4096)) }
{
    if buf.len() / numbers::PAGE_SIZE < slot {
        fields::zero_fill(b, 0, numbers::PAGE_SIZE);
        return;
    }
    fill_part(b, buf, slot * numbers::PAGE_SIZE);
}

// The bytes of a frame.
pub fn frame_of(buf: &[u8], slot: usize) -> [u8; 4096]
    ensures { result ≡ part 4096 buf.now (slot * 4096) }
{
    let mut bytes = [0; 4096];
    copy_frame(&mut bytes[..], buf, slot);
    bytes
}

// The bytes of a page of the file.
pub fn page_of(db: &[u8], len: usize, page: u32) -> [u8; 4096]
    ensures { result ≡ page_of 4096 (file_of db.now len) page }
{
    let mut bytes = [0; 4096];
    fill_page(&mut bytes[..], db, len, page);
    bytes
}

// Bytes into a frame. Whether the slot lies past the buffer's end is tested before its place is worked out, which could overflow.
pub fn put_frame(buf: &mut [u8], slot: usize, bytes: &[u8; 4096])
    ensures { buf.new ≡ sets buf.old (slot * 4096) bytes.now }
{
    if buf.len() / numbers::PAGE_SIZE < slot {
        return;
    }
    fields::lay(buf, slot * numbers::PAGE_SIZE, bytes);
}

// A page of the file into a frame: the buffer's part from the frame on is lent.
pub fn fill_frame(buf: &mut [u8], slot: usize, db: &[u8], len: usize, page: u32)
    ensures { buf.new ≡ sets buf.old (slot * 4096) (page_of 4096 (file_of db.now len) page) }
{
    if buf.len() / numbers::PAGE_SIZE < slot {
        return;
    }
    let at = slot * numbers::PAGE_SIZE;
    fill_page(&mut buf[at..], db, len, page);
}
