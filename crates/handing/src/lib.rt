// The call that hands a store's table out into a lent slice of entries. It makes the tests of 1 and 14 that every call makes first, then 13, and changes no store and
// no buffer.
#![tactic(auto)]

ghost use Rattle.std.specs.Prelude.{◌≡◌};
ghost use Rattle.hands.specs.Handing.{handed_as};
ghost use Rattle.handing.specs.Tables.{table_handed};

use fields::Refusal;
use form::Store;
use table::Entry;

pub fn hand_out_table(
    s: Store,
    log: &[u8],
    db: &[u8],
    clog: &[u8],
    frames: &[u8],
    out: &mut [Entry],
) -> Result<usize, Refusal>
    ensures { handed_as result out.new ≡ table_handed 4096 s log.now db.now clog.now frames.now out.old }
{
    form::check_front(s, log, db, clog, frames)?;
    hands::hand_out(s.table, out)
}
