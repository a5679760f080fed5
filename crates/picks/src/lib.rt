// Which touched pages a call logs, writes or reverts: those that are resident, of these all, the data pages, or the catalog pages (1, 2 and a list), ascending
// as they were touched, each with the slot of its frame.
#![tactic(auto)]

ghost use Rattle.std.specs.Prelude.{◌≡◌, [], ◌<◌};
ghost use Rattle.frames.specs.Pages.{any_bad, resident_of, touched_of, place_told};
ghost use Rattle.picks.specs.Picks.{wants, picked_of, seats_of, chosen};
ghost use Rattle.picks.specs.Inside.{seat_if, grown};

use fields::numbers;
use frames::{Frames, Touched};

// The most touched pages.
const LIMIT: usize = 64;

#[derive(Clone, Copy)]
pub enum Which {
    All,
    Data,
    Catalog,
}

// The pages that were picked, and their slots: the first n of each, and zeros after them.
#[derive(Clone, Copy)]
pub struct Picked {
    pub pages: [u32; 64],
    pub slots: [usize; 64],
    pub n: usize,
}

// No page picked.
pub fn none() -> Picked
    ensures { result ≡ picked_of 64 [] }
{
    Picked {
        pages: [0; 64],
        slots: [0; 64],
        n: 0,
    }
}

// Whether a list names the page that no file has.
pub fn any_bad(list: &[u32]) -> bool
    ensures { result ≡ any_bad list.now }
{
    list.iter().any(|page| numbers::NO_PAGE <= *page)
}

// Whether a page is a catalog page. The list may be long, unsorted and repeated.
#[tactic(auto, using(crate::proofs::Laws::in_any))]
fn is_catalog(list: &[u32], page: u32) -> bool
    ensures { result ≡ wants Which.Catalog list.now page }
{
    page == 1 || page == 2 || list.contains(&page)
}

fn wanted(which: Which, list: &[u32], page: u32) -> bool
    ensures { result ≡ wants which list.now page }
{
    match which {
        Which::All => true,
        Which::Data => !is_catalog(list, page),
        Which::Catalog => is_catalog(list, page),
    }
}

// With one page more, if it is resident and wanted.
fn with_page(p: Picked, page: u32, place: Option<usize>, want: bool) -> Picked
    requires { p.n < 64 }
    ensures { result ≡ grown p (seat_if want page (place_told place).values) }
{
    if !want {
        return p;
    }
    let Some(slot) = place else {
        return p;
    };
    let n = p.n;
    let mut q = p;
    q.pages[n] = page;
    q.slots[n] = slot;
    q.n = n + 1;
    q
}

// The touched resident pages that are wanted.
pub fn pick(t: Touched, f: Frames, which: Which, list: &[u32]) -> Picked
    ensures { result ≡ picked_of 64 (seats_of (resident_of f) (chosen which list.now (resident_of f) (touched_of t))) }
{
    let n = t.count.min(LIMIT);
    let mut p = none();
    for page in &t.pages[..n] {
        let place = frames::find(f, *page);
        let want = wanted(which, list, *page);
        p = with_page(p, *page, place, want);
    }
    p
}
