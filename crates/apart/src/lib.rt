// The tests of page numbers that 14 asks for, on the lent arrays and without an early way out, so that several pages are compared at once. Pages that ascend are
// distinct: the pairs are compared only where they do not ascend. Resident pages are 32-bit numbers and touched pages 64-bit ones, so that no function can be handed the
// one for the other. The definitions are those of crate frames.
#![tactic(auto)]

ghost use Rattle.std.specs.Prelude.{◌≡◌, ◌≤◌, take, drop};
ghost use Rattle.frames.specs.Pages.{is_in, distinct, ascending, any_bad, frame_count, frames_formed, touched_formed};

use fields::numbers;

// The most frames, and the most touched pages.
const LIMIT: usize = 64;

fn is_rising(pages: &[u32; 64], n: usize) -> bool
    requires { n ≤ 64 }
    ensures { result ≡ ascending (take n pages.now) }
{
    let mut good = true;
    for i in 1..n {
        good &= pages[i - 1] < pages[i];
    }
    good
}

fn any_bad(pages: &[u32; 64], n: usize) -> bool
    requires { n ≤ 64 }
    ensures { result ≡ any_bad (take n pages.now) }
{
    let mut bad = false;
    for page in &pages[..n] {
        bad |= numbers::NO_PAGE <= *page;
    }
    bad
}

fn is_in(pages: &[u32; 64], from: usize, n: usize, page: u32) -> bool
    requires { n ≤ 64 }
    ensures { result ≡ is_in page (drop from (take n pages.now)) }
{
    let mut found = false;
    for i in from..n {
        found |= pages[i] == page;
    }
    found
}

fn are_distinct(pages: &[u32; 64], n: usize) -> bool
    requires { n ≤ 64 }
    ensures { result ≡ distinct (take n pages.now) }
{
    if is_rising(pages, n) {
        return true;
    }
    for i in 0..n {
        if is_in(pages, i + 1, n, pages[i]) {
            return false;
        }
    }
    true
}

// How many frames a frame buffer of this size has.
#[tactic(auto, unfolding(frames::specs::Pages::frame_count))]
fn frame_count(size: usize) -> usize
    ensures { result ≡ frame_count 64 4096 size }
{
    LIMIT.min(size / numbers::PAGE_SIZE)
}

// Whether the first n are resident pages in form, for a frame buffer of this size.
#[tactic(auto, unfolding(frames::specs::Pages::frame_count, frames::specs::Pages::frames_formed))]
pub fn resident_formed(resident: &[u32; 64], n: usize, size: usize) -> bool
    ensures { result ≡ frames_formed 64 4096 (record { pages = resident.now; count = n }) size }
{
    n <= frame_count(size) && are_distinct(resident, n) && !any_bad(resident, n)
}

// ---- touched pages

fn is_climbing(touched: &[u64; 64], n: usize) -> bool
    requires { n ≤ 64 }
    ensures { result ≡ ascending (take n touched.now) }
{
    let mut good = true;
    for i in 1..n {
        good &= touched[i - 1] < touched[i];
    }
    good
}

fn any_beyond(touched: &[u64; 64], n: usize) -> bool
    requires { n ≤ 64 }
    ensures { result ≡ any_bad (take n touched.now) }
{
    let mut bad = false;
    for page in &touched[..n] {
        bad |= 4294967295 <= *page;
    }
    bad
}

// Whether the first n are touched pages in form.
#[tactic(auto, unfolding(frames::specs::Pages::touched_formed))]
pub fn touched_formed(touched: &[u64; 64], n: usize) -> bool
    ensures { result ≡ touched_formed 64 (record { pages = touched.now; count = n }) }
{
    n <= LIMIT && is_climbing(touched, n) && !any_beyond(touched, n)
}
