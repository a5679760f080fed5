// The log reader: a struct that holds the log, its length and a place in it, and thin functions over it. What is done of the log is done by wal's
// functions and by `after`. The functions over plain slices at the end are for callers that want no reader of their own.
#![tactic(auto)]

ghost use Rattle.std.specs.Prelude.{◌≡◌};
ghost use Rattle.fields.specs.Files.{file_of};
ghost use Rattle.wal.specs.Reading.{read_told, read_in, start_in, IsImage};
ghost use Rattle.reader.specs.Places.{after_in, reader_at, file_in, moved};

use wal::Read;

#[derive(Clone, Copy)]
pub struct LogReader<'a> {
    pub log: &'a [u8],
    pub len: usize,
    pub at: usize,
}

// The place after the record at a place; the place itself where there is none.
pub fn after(log: &[u8], len: usize, at: usize) -> usize
    ensures { result ≡ after_in 4096 (file_of log.now len) at }
{
    match wal::read_record(log, len, at) {
        Read::Found(_, next) => next,
        Read::End => at,
        Read::Torn(_) => at,
        Read::Unknown => at,
        Read::Outside => at,
    }
}

// ---- over the struct

// A reader where the log's records start.
pub fn at_start<'a>(log: &'a [u8], len: usize) -> LogReader<'a>
    ensures { result ≡ reader_at log.entry len (start_in (file_of log.now len)) }
{
    let at = wal::start_of(log, len);
    LogReader { log, len, at }
}

pub fn at_place<'a>(log: &'a [u8], len: usize, at: usize) -> LogReader<'a>
    ensures { result ≡ reader_at log.entry len at }
{
    LogReader { log, len, at }
}

// Where it reads.
pub fn place<'a>(r: LogReader<'a>) -> usize
    ensures { result ≡ r.entry.at }
{
    r.at
}

// The record at its place.
pub fn next<'a>(r: LogReader<'a>) -> Read
    ensures { read_told result ≡ read_in 4096 (file_in r.entry) r.entry.at }
{
    wal::read_record(r.log, r.len, r.at)
}

// The page bytes of the image at its place: that part of the log, not a copy.
pub fn image<'a>(r: LogReader<'a>) -> &'a [u8]
    ensures { IsImage 4096 r.entry.log r.entry.len r.entry.at result }
{
    wal::image(r.log, r.len, r.at)
}

// The reader past the record at its place.
pub fn past<'a>(r: LogReader<'a>) -> LogReader<'a>
    ensures { result ≡ moved r.entry (after_in 4096 (file_in r.entry) r.entry.at) }
{
    let at = after(r.log, r.len, r.at);
    LogReader {
        log: r.log,
        len: r.len,
        at,
    }
}

// ---- over plain slices

// Where a reader of the log starts.
pub fn start(log: &[u8], len: usize) -> usize
    ensures { result ≡ start_in (file_of log.now len) }
{
    place(at_start(log, len))
}

// What a reader at a place reads.
pub fn record_from(log: &[u8], len: usize, at: usize) -> Read
    ensures { read_told result ≡ read_in 4096 (file_of log.now len) at }
{
    next(at_place(log, len, at))
}

// The page bytes that a reader at a place shows.
pub fn image_from(log: &[u8], len: usize, at: usize) -> &[u8]
    ensures { IsImage 4096 log.entry len at result }
{
    image(at_place(log, len, at))
}

// Where a reader at a place reads next.
pub fn place_after(log: &[u8], len: usize, at: usize) -> usize
    ensures { result ≡ after_in 4096 (file_of log.now len) at }
{
    place(past(at_place(log, len, at)))
}
