// Lists the log `store.db.wal` in the current folder (a missing file counts as empty) through the log reader, with the lines of the program `records`:
// the place of each tag, what the record is, its fields, the place after it; then how the log ended. Each step asks one of the reader's functions over plain
// slices. A file of over 24,576 bytes does not fit and gives 1.
#![tactic(auto)]

use fields::Refusal;
use std::io;
use wal::{Read, WalRecord};

const ROOM: usize = 24576;

const PAGE: usize = 4096;

// A kind and up to two fields, then the place after the record. An image is one only where the part that the reader shows has a page's bytes.
fn line(rt: &impl Print, at: usize, record: WalRecord, part: usize, next: usize) -> io::Result<()> {
    match record {
        WalRecord::Image(page, _) if part == PAGE => println!(rt; "{at} image {page} {next}"),
        WalRecord::Image(page, _) => println!(rt; "{at} {page} {next}"),
        WalRecord::Begin(id) => println!(rt; "{at} begin {} {next}", id.0),
        WalRecord::Commit(id, time) => println!(rt; "{at} commit {} {} {next}", id.0, time.0),
        WalRecord::Abort(id) => println!(rt; "{at} abort {} {next}", id.0),
        WalRecord::Checkpoint => println!(rt; "{at} checkpoint {next}"),
    }
}

// Writes what the reader reads at a place, a bad record with its number, how many bytes of an image it shows there, and where it reads next.
fn show(rt: &impl Print, at: usize, r: Read, part: usize, next: usize) -> io::Result<()> {
    match r {
        Read::Found(record, _) => line(rt, at, record, part, next),
        Read::End => println!(rt; "end {at}"),
        Read::Torn(missing) => println!(rt; "{} at {at} short {missing}", Refusal::Torn.number()),
        Read::Unknown => println!(rt; "{} at {at}", Refusal::UnknownTag.number()),
        Read::Outside => println!(rt; "{}", Refusal::Unfit.number()),
    }
}

// The list ends where the reader does not move on. Each record takes at least a byte, so that as many turns are enough.
fn list(rt: &impl Print, log: &[u8], len: usize) -> io::Result<()> {
    let mut at = reader::start(log, len);
    for _ in 0..ROOM {
        let part = reader::image_from(log, len, at).len();
        let next = reader::place_after(log, len, at);
        show(rt, at, reader::record_from(log, len, at), part, next)?;
        if next == at {
            break;
        }
        at = next;
    }
    Ok(())
}

// The buffer has one byte more than the log may have.
fn main(rt: HostRuntime) -> io::Result<()> {
    let mut log = [0u8; ROOM + 1];
    let len = intake::fetch_start(&rt, "store.db.wal", &mut log);
    if ROOM < len {
        return println!(rt; "{}", Refusal::Unfit.number());
    }
    list(&rt, &log[..ROOM], len)
}
