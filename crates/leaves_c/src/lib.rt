// Exports for C or Rust: log, clog and status pages, each by itself. Each function calls the one of its name in the crate leaves, and its clauses are that one's, word for word (.ci/tried holds them
// against each other).
#![tactic(auto)]

ghost use Rattle.std.specs.Prelude.{◌≡◌};
ghost use Rattle.std.proofs.lemmas.List.Edits.{sets};
ghost use Rattle.fields.specs.Files.{file_of};
ghost use Rattle.wal.specs.Records.{image, begin, commit, abort, checkpoint};
ghost use Rattle.wal.specs.Reading.{read_in, start_in};
ghost use Rattle.wal.specs.Writing.{appended, truncated};
ghost use Rattle.clog.specs.Calls.{opened, wiped, compacted, loaded};
ghost use Rattle.meta.specs.Page.{format_no, meta_in, meta_page};
ghost use Rattle.words.specs.Values.{said};
ghost use Rattle.xacts.specs.Calls.{written, read_back};
ghost use Rattle.shrunk.specs.Calls.{moved_second, moved_first, compacted_second, loaded_second};
ghost use Rattle.leaves.specs.Leaves.{said_by, meta_said, left, left_by, recorded_tag, recorded_second_tag, handed, handed_by};

#[unsafe(no_mangle)]
pub extern "C" fn nyotmelang_log_start(log: &[u8], len: usize) -> usize
    ensures { result ≡ start_in (file_of log.now len) }
{
    leaves::nyotmelang_log_start(log, len)
}

#[unsafe(no_mangle)]
pub extern "C" fn nyotmelang_log_read(
    log: &[u8],
    len: usize,
    at: usize,
    values: &mut [u64; 4],
) -> u8
    ensures { said result values.new ≡ said_by (read_in 4096 (file_of log.now len) at) }
{
    leaves::nyotmelang_log_read(log, len, at, values)
}

#[unsafe(no_mangle)]
pub extern "C" fn nyotmelang_log_append_begin(
    log: &mut [u8],
    len: usize,
    id: u64,
    values: &mut [u64; 4],
) -> u8
    ensures { left result values.new log.new ≡ left_by (appended (begin id) (file_of log.old len)) }
{
    leaves::nyotmelang_log_append_begin(log, len, id, values)
}

#[unsafe(no_mangle)]
pub extern "C" fn nyotmelang_log_append_abort(
    log: &mut [u8],
    len: usize,
    id: u64,
    values: &mut [u64; 4],
) -> u8
    ensures { left result values.new log.new ≡ left_by (appended (abort id) (file_of log.old len)) }
{
    leaves::nyotmelang_log_append_abort(log, len, id, values)
}

#[unsafe(no_mangle)]
pub extern "C" fn nyotmelang_log_append_commit(
    log: &mut [u8],
    len: usize,
    id: u64,
    time: u64,
    values: &mut [u64; 4],
) -> u8
    ensures { left result values.new log.new ≡ left_by (appended (commit id time) (file_of log.old len)) }
{
    leaves::nyotmelang_log_append_commit(log, len, id, time, values)
}

#[unsafe(no_mangle)]
pub extern "C" fn nyotmelang_log_append_checkpoint(
    log: &mut [u8],
    len: usize,
    values: &mut [u64; 4],
) -> u8
    ensures { left result values.new log.new ≡ left_by (appended checkpoint (file_of log.old len)) }
{
    leaves::nyotmelang_log_append_checkpoint(log, len, values)
}

#[unsafe(no_mangle)]
pub extern "C" fn nyotmelang_log_append_page(
    log: &mut [u8],
    len: usize,
    page: u32,
    bytes: &[u8; 4096],
    values: &mut [u64; 4],
) -> u8
    ensures { left result values.new log.new ≡ left_by (appended (image page bytes.now) (file_of log.old len)) }
{
    leaves::nyotmelang_log_append_page(log, len, page, bytes, values)
}

#[unsafe(no_mangle)]
pub extern "C" fn nyotmelang_log_truncate(log: &mut [u8], len: usize, values: &mut [u64; 4]) -> u8
    ensures { left result values.new log.new ≡ left_by (truncated (file_of log.old len)) }
{
    leaves::nyotmelang_log_truncate(log, len, values)
}

#[unsafe(no_mangle)]
pub extern "C" fn nyotmelang_clog_open(clog: &mut [u8], len: usize, values: &mut [u64; 4]) -> u8
    ensures { left result values.new clog.new ≡ left_by (opened (file_of clog.old len)) }
{
    leaves::nyotmelang_clog_open(clog, len, values)
}

#[unsafe(no_mangle)]
pub extern "C" fn nyotmelang_clog_reset(clog: &mut [u8], len: usize, values: &mut [u64; 4]) -> u8
    ensures { left result values.new clog.new ≡ left_by (wiped (file_of clog.old len)) }
{
    leaves::nyotmelang_clog_reset(clog, len, values)
}

#[unsafe(no_mangle)]
pub extern "C" fn nyotmelang_clog_record(
    clog: &mut [u8],
    len: usize,
    id: u64,
    status: u64,
    time: u64,
    values: &mut [u64; 4],
) -> u8
    ensures { left result values.new clog.new ≡ left_by (recorded_tag (file_of clog.old len) id status time) }
{
    leaves::nyotmelang_clog_record(clog, len, id, status, time, values)
}

#[unsafe(no_mangle)]
pub extern "C" fn nyotmelang_clog_compact(
    clog: &mut [u8],
    len: usize,
    below: u64,
    values: &mut [u64; 4],
) -> u8
    ensures { left result values.new clog.new ≡ left_by (compacted 8 0 (file_of clog.old len) below) }
{
    leaves::nyotmelang_clog_compact(clog, len, below, values)
}

#[unsafe(no_mangle)]
pub extern "C" fn nyotmelang_clog_load(
    clog: &mut [u8],
    len: usize,
    rows: &mut [[u64; 3]; 256],
    values: &mut [u64; 4],
) -> u8
    ensures { handed result values.new clog.new rows.new ≡ handed_by rows.old (loaded 256 8 0 (file_of clog.old len)) }
{
    leaves::nyotmelang_clog_load(clog, len, rows, values)
}

#[unsafe(no_mangle)]
pub extern "C" fn nyotmelang_clog_write_pages(
    clog: &[u8],
    len: usize,
    mark: u64,
    out: &mut [u8],
    values: &mut [u64; 4],
) -> u8
    ensures { left result values.new out.new ≡ left_by (written 8192 mark (file_of clog.now len) out.old) }
{
    leaves::nyotmelang_clog_write_pages(clog, len, mark, out, values)
}

#[unsafe(no_mangle)]
pub extern "C" fn nyotmelang_clog_read_pages(
    pages: &[u8],
    out: &mut [u8],
    values: &mut [u64; 4],
) -> u8
    ensures { left result values.new out.new ≡ left_by (read_back 8192 pages.now out.old) }
{
    leaves::nyotmelang_clog_read_pages(pages, out, values)
}

#[unsafe(no_mangle)]
pub extern "C" fn nyotmelang_clog_to_second(
    clog: &[u8],
    len: usize,
    mark: u64,
    out: &mut [u8],
    values: &mut [u64; 4],
) -> u8
    ensures { left result values.new out.new ≡ left_by (moved_second mark (file_of clog.now len) out.old) }
{
    leaves::nyotmelang_clog_to_second(clog, len, mark, out, values)
}

#[unsafe(no_mangle)]
pub extern "C" fn nyotmelang_clog_to_first(
    second: &[u8],
    len: usize,
    out: &mut [u8],
    values: &mut [u64; 4],
) -> u8
    ensures { left result values.new out.new ≡ left_by (moved_first (file_of second.now len) out.old) }
{
    leaves::nyotmelang_clog_to_first(second, len, out, values)
}

#[unsafe(no_mangle)]
pub extern "C" fn nyotmelang_second_record(
    second: &mut [u8],
    len: usize,
    id: u64,
    status: u64,
    time: u64,
    values: &mut [u64; 4],
) -> u8
    ensures { left result values.new second.new ≡ left_by (recorded_second_tag (file_of second.old len) id status time) }
{
    leaves::nyotmelang_second_record(second, len, id, status, time, values)
}

#[unsafe(no_mangle)]
pub extern "C" fn nyotmelang_second_compact(
    second: &mut [u8],
    len: usize,
    below: u64,
    values: &mut [u64; 4],
) -> u8
    ensures { left result values.new second.new ≡ left_by (compacted_second (file_of second.old len) below) }
{
    leaves::nyotmelang_second_compact(second, len, below, values)
}

#[unsafe(no_mangle)]
pub extern "C" fn nyotmelang_second_load(
    second: &mut [u8],
    len: usize,
    rows: &mut [[u64; 3]; 256],
    values: &mut [u64; 4],
) -> u8
    ensures { handed result values.new second.new rows.new ≡ handed_by rows.old (loaded_second 256 (file_of second.old len)) }
{
    leaves::nyotmelang_second_load(second, len, rows, values)
}

#[unsafe(no_mangle)]
pub extern "C" fn nyotmelang_meta_format(db: &[u8], len: usize) -> u8
    ensures { result ≡ format_no 4096 (file_of db.now len) }
{
    leaves::nyotmelang_meta_format(db, len)
}

#[unsafe(no_mangle)]
pub extern "C" fn nyotmelang_meta_read(db: &[u8], len: usize, values: &mut [u64; 4]) -> u8
    ensures { said result values.new ≡ meta_said (meta_in 4096 (file_of db.now len)) }
{
    leaves::nyotmelang_meta_read(db, len, values)
}

#[unsafe(no_mangle)]
pub extern "C" fn nyotmelang_meta_put(buf: &mut [u8], at: usize, next: u64, time: u64, mark: u64)
    ensures { buf.new ≡ sets buf.old at (meta_page 4096 next time mark) }
{
    leaves::nyotmelang_meta_put(buf, at, next, time, mark)
}
