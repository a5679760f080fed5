// Lists the records of the log `store.db.wal` in the current folder (a missing file counts as empty): the place of each tag, what the record is, its
// fields, the place after it; then how the log ended. A file of over 24,576 bytes does not fit and gives 1.
#![tactic(auto)]

use fields::Refusal;
use std::io;
use wal::{Read, WalRecord};

const ROOM: usize = 24576;

// A kind and up to two fields, then the place after the record.
fn line(rt: &impl Print, at: usize, record: WalRecord, next: usize) -> io::Result<()> {
    match record {
        WalRecord::Image(page, _) => println!(rt; "{at} image {page} {next}"),
        WalRecord::Begin(id) => println!(rt; "{at} begin {} {next}", id.0),
        WalRecord::Commit(id, time) => println!(rt; "{at} commit {} {} {next}", id.0, time.0),
        WalRecord::Abort(id) => println!(rt; "{at} abort {} {next}", id.0),
        WalRecord::Checkpoint => println!(rt; "{at} checkpoint {next}"),
    }
}

// Writes what was read at a place, a bad record with its number; gives the place to read next, None where the list ends.
fn show(rt: &impl Print, at: usize, r: Read) -> io::Result<Option<usize>> {
    match r {
        Read::Found(record, next) => {
            line(rt, at, record, next)?;
            return Ok(Some(next));
        }
        Read::End => println!(rt; "end {at}")?,
        Read::Torn(missing) => println!(rt; "{} at {at} short {missing}", Refusal::Torn.number())?,
        Read::Unknown => println!(rt; "{} at {at}", Refusal::UnknownTag.number())?,
        Read::Outside => println!(rt; "{}", Refusal::Unfit.number())?,
    }
    Ok(None)
}

// Each record takes at least a byte, so that as many turns are enough.
fn list(rt: &impl Print, log: &[u8], len: usize) -> io::Result<()> {
    let mut at = wal::start_of(log, len);
    for _ in 0..ROOM {
        match show(rt, at, wal::read_record(log, len, at))? {
            Some(next) => at = next,
            None => break,
        }
    }
    Ok(())
}

// The buffer has one byte more than the log may have.
fn main(rt: HostRuntime) -> io::Result<()> {
    let mut log = [0u8; ROOM + 1];
    let len = intake::fetch_start(&rt, "store.db.wal", &mut log);
    if ROOM < len {
        return println!(rt; "{}", Refusal::Unfit.number());
    }
    list(&rt, &log[..ROOM], len)
}
