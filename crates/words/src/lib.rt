// The head of a store as a host keeps it: twelve words, beside the three arrays. specs/Words.antt says which word is what. Any twelve words are a head, and a head is
// twelve words, so nothing is lost in between and nothing is refused here.
#![tactic(auto)]

ghost use Rattle.std.specs.Prelude.{◌≡◌};
ghost use Rattle.lent.specs.Lent.{replied};
ghost use Rattle.words.specs.Words.{head_in, words_of};

use fields::{CommitTime, Refusal, TransactionId, numbers};
use lent::Head;
use world::Lens;

pub fn head_in(head: &[u64; 12]) -> Head
    ensures { result ≡ head_in head.now }
{
    let lens = Lens {
        log: head[0] as usize,
        db: head[1] as usize,
        clog: head[2] as usize,
    };
    Head {
        lens,
        pages: head[3],
        next: TransactionId(head[4]),
        time: CommitTime(head[5]),
        mark: TransactionId(head[6]),
        held: head[7],
        id: TransactionId(head[8]),
        entries: head[9] as usize,
        resident: head[10] as usize,
        touched: head[11] as usize,
    }
}

pub fn put_head(head: &mut [u64; 12], h: Head)
    ensures { head.new ≡ words_of h }
{
    let n = h.lens;
    let log = n.log as u64;
    let db = n.db as u64;
    let clog = n.clog as u64;
    let entries = h.entries as u64;
    let resident = h.resident as u64;
    let touched = h.touched as u64;
    *head = [
        log, db, clog, h.pages, h.next.0, h.time.0, h.mark.0, h.held, h.id.0, entries, resident,
        touched,
    ];
}

// What a call answers, for a host: the words of the head after it, and its number. A refused call leaves the words as they are.
pub fn answer(head: &mut [u64; 12], r: Result<Head, Refusal>) -> u8
    ensures number { result ≡ (replied (head_in head.old) r).number }
    ensures words { head.new ≡ words_of (replied (head_in head.old) r).head }
{
    match r {
        Ok(after) => {
            put_head(head, after);
            numbers::ACCEPTED
        }
        Err(refusal) => refusal.number(),
    }
}
