// Runs the calls of the file `calls` on a clog in a buffer of 4,096 bytes, and writes after each its kind, its number, the clog's length and a sum over its
// bytes, and after a load the entries. The list and what must be written were made by the published Rust.
#![tactic(auto)]

use fields::{CommitTime, Refusal, TransactionId};
use std::io;
use table::{Status, Table};

// A byte that tells the kind, and a number of 8 bytes.
const CALL_SIZE: usize = 9;

#[derive(Clone, Copy)]
enum Call {
    Open,
    Reset,
    Record(Status),
    Compact,
    Load,
}

impl From<u8> for Call {
    fn from(kind: u8) -> Self {
        match kind {
            0 => Call::Open,
            1 => Call::Reset,
            2 => Call::Record(Status::Active),
            // The clog keeps no time, so that any will do.
            3 => Call::Record(Status::Committed(CommitTime(1))),
            4 => Call::Record(Status::Aborted),
            6 => Call::Load,
            _ => Call::Compact,
        }
    }
}

fn sum(bytes: &[u8]) -> u64 {
    let mut total: u64 = 7;
    for byte in bytes {
        total = (total * 31 + *byte as u64) % 65521;
    }
    total
}

fn show_table(rt: &impl Print, t: &Table) -> io::Result<()> {
    for e in &t.entries[..t.count.min(256)] {
        let id = e.id.0;
        match e.status {
            Status::Active => println!(rt; "  {id} I")?,
            Status::Committed(time) => println!(rt; "  {id} C {}", time.0)?,
            Status::Aborted => println!(rt; "  {id} A")?,
        }
    }
    Ok(())
}

// The clog's length after a call, and the table that a load gives.
fn carry_out(
    call: Call,
    id: TransactionId,
    clog: &mut [u8],
    len: usize,
) -> Result<(usize, Option<Table>), Refusal> {
    let end = match call {
        Call::Open => clog::open(clog, len)?,
        Call::Reset => clog::reset(clog, len)?,
        Call::Record(status) => clog::record(clog, len, id, status)?,
        Call::Compact => clog::compact(clog, len, id)?,
        Call::Load => return Ok((len, Some(clog::load(clog, len)?))),
    };
    Ok((end, None))
}

// A refusal leaves the clog's length.
fn turn(rt: &impl Print, kind: u8, n: u64, clog: &mut [u8], len: usize) -> io::Result<usize> {
    let done = carry_out(Call::from(kind), TransactionId(n), clog, len);
    let (end, table) = done.unwrap_or((len, None));
    println!(rt; "{kind} {n} {end} {}", sum(&clog[..end.min(clog.len())]))?;
    if let Some(t) = table {
        show_table(rt, &t)?;
    }
    Ok(end)
}

fn run(rt: &impl Print, calls: &[u8], clog: &mut [u8]) -> io::Result<()> {
    let mut len = 0;
    for call in calls.chunks_exact(CALL_SIZE) {
        len = turn(rt, call[0], fields::get_u64(call, 1), clog, len)?;
    }
    Ok(())
}

fn main(rt: HostRuntime) -> io::Result<()> {
    let mut calls = [0u8; 4096];
    let mut clog = [0xEEu8; 4096];
    let n = intake::fetch_start(&rt, "calls", &mut calls);
    run(&rt, &calls[..n], &mut clog)
}
