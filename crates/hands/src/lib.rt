// The status table, handed out into a lent slice of entries: how many go is told first, then they are laid. An entry is its id and its status, a
// Committed one with its time.
#![tactic(auto)]

ghost use Rattle.std.specs.Prelude.{◌≡◌};
ghost use Rattle.fields.specs.Answers.{told};
ghost use Rattle.hands.specs.Handing.{handed_as, numbered_as, handed};
ghost use Rattle.hands.specs.Inside.{hand_told};

use fields::{Refusal, numbers};
use table::{Entry, Table};

// How many entries are handed out into a slice of room entries: all, unless it is refused.
#[tactic(auto, unfolding(crate::specs::Inside::hand_told, crate::specs::Handing::hand_no))]
fn to_hand(t: Table, room: usize) -> Result<usize, Refusal>
    ensures { told result ≡ hand_told 256 t room 0 }
{
    if !table::well_formed(t) {
        return Err(Refusal::OutOfForm);
    }
    if room < t.count {
        return Err(Refusal::SliceShort);
    }
    Ok(t.count)
}

// All entries, or none where it is refused; what stands after them stays.
pub fn hand_out(t: Table, out: &mut [Entry]) -> Result<usize, Refusal>
    ensures { handed_as result out.new ≡ handed 256 t out.old 0 }
{
    let n = to_hand(t, out.len())?;
    fields::copy(out, &t.entries[..n]);
    Ok(n)
}

// The same after other tests, which gave a number: any but 0 is the answer's too, and nothing is handed out.
pub fn hand_after(t: Table, out: &mut [Entry], before: u8) -> Result<usize, u8>
    ensures { numbered_as result out.new ≡ handed 256 t out.old before }
{
    if before != numbers::ACCEPTED {
        return Err(before);
    }
    match hand_out(t, out) {
        Ok(all) => Ok(all),
        Err(r) => Err(r.number()),
    }
}
