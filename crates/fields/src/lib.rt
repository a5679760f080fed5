// Fields of a byte buffer: numbers of 4 and 8 bytes, little-endian and big-endian, bytes copied into a lent part, zeros, and the test of a magic.
// Every public function is total: what lies outside the buffer is neither read nor written, and its contract says so by one
// equation with a definition of specs/Bytes.antt or with `sets`, which stores what lies inside a list and ignores the rest.
#![tactic(auto)]

pub mod arrays;
pub mod numbers;
mod refusal;

ghost use Rattle.std.specs.Prelude.{◌≡◌, ◌+◌, ◌-◌, ◌<◌, min, max, ◌++◌, length, take, drop, replicate};
ghost use Rattle.std.proofs.lemmas.List.Edits.{sets};
ghost use Rattle.fields.specs.Bytes.{field, bytes_of, big_field, big_bytes, part, starts};
ghost use Rattle.fields.specs.Files.{unfit};

pub use refusal::Refusal;

// A transaction's number. It is never accepted as a time.
#[derive(Clone, Copy, Debug, PartialEq, Eq, PartialOrd, Ord)]
pub struct TransactionId(pub u64);

// A commit's time. It is never accepted as a transaction's number.
#[derive(Clone, Copy, Debug, PartialEq, Eq, PartialOrd, Ord)]
pub struct CommitTime(pub u64);

// Whether a buffer is over its limit, or the length over the buffer.
pub fn is_unfit(limit: usize, size: usize, len: usize) -> bool
    ensures { result ≡ unfit limit size len }
{
    limit < size || size < len
}

// How many of n bytes from `at` on lie inside len bytes.
fn inside(len: usize, at: usize, n: usize) -> usize
    ensures { result ≡ min n (len - at) }
{
    n.min(len.saturating_sub(at))
}

// ---- numbers, the lowest byte first

// The first N bytes of what is left of a buffer, which are not all there; the rest counts as 0.
#[cold]
fn last_bytes<const N: usize>(rest: &[u8]) -> [u8; N]
    ensures { result ≡ sets (replicate N 0) 0 rest.now }
{
    let mut bytes = [0; N];
    copy(&mut bytes, rest);
    bytes
}

// The N bytes from `at` on; what lies past the end counts as 0. Where all lie inside, N is the length of a copy that becomes one load.
fn bytes_at<const N: usize>(b: &[u8], at: usize) -> [u8; N]
    ensures { result ≡ part N b.now at }
{
    let mut bytes = [0; N];
    if b.len() <= at {
        return bytes;
    }
    let rest = &b[at..];
    if rest.len() < N {
        return last_bytes(rest);
    }
    bytes.copy_from_slice(&rest[..N]);
    bytes
}

pub fn get_u32(b: &[u8], at: usize) -> u32
    ensures { result ≡ field 4 at b.now }
{
    u32::from_le_bytes(bytes_at(b, at))
}

pub fn get_u64(b: &[u8], at: usize) -> u64
    ensures { result ≡ field 8 at b.now }
{
    u64::from_le_bytes(bytes_at(b, at))
}

pub fn put_u32(b: &mut [u8], at: usize, v: u32)
    ensures { b.new ≡ sets b.old at (bytes_of 4 v) }
{
    lay(b, at, &u32::to_le_bytes(v));
}

pub fn put_u64(b: &mut [u8], at: usize, v: u64)
    ensures { b.new ≡ sets b.old at (bytes_of 8 v) }
{
    lay(b, at, &u64::to_le_bytes(v));
}

// ---- the same with the highest byte first

// The N bytes from `at` on, of those that lie inside, at the end of as many zeros as are missing: the highest byte is the first that there is.
fn last_bytes_at<const N: usize>(b: &[u8], at: usize) -> [u8; N]
    ensures { result ≡ replicate (N - length (take N (drop at b.now))) 0 ++ take N (drop at b.now) }
{
    let mut bytes = [0; N];
    let k = inside(b.len(), at, N);
    if 0 < k {
        lay(&mut bytes, N - k, &b[at..at + k]);
    }
    bytes
}

pub fn get_big_u32(b: &[u8], at: usize) -> u32
    ensures { result ≡ big_field 4 at b.now }
{
    u32::from_be_bytes(last_bytes_at(b, at))
}

pub fn get_big_u64(b: &[u8], at: usize) -> u64
    ensures { result ≡ big_field 8 at b.now }
{
    u64::from_be_bytes(last_bytes_at(b, at))
}

pub fn put_big_u32(b: &mut [u8], at: usize, v: u32)
    ensures { b.new ≡ sets b.old at (big_bytes 4 v) }
{
    lay(b, at, &u32::to_be_bytes(v));
}

pub fn put_big_u64(b: &mut [u8], at: usize, v: u64)
    ensures { b.new ≡ sets b.old at (big_bytes 8 v) }
{
    lay(b, at, &u64::to_be_bytes(v));
}

// ---- parts

// src over dst, which is as long. Not by std's `copy_from_slice`: that becomes memmove, which the archive for C would then ask of its host; this loop becomes memcpy,
// and where the length is known, as that of a number, a load or a store.
fn copy_all<T: Copy>(dst: &mut [T], src: &[T])
    requires { length dst.old ≡ length src.now }
    ensures { dst.new ≡ src.now }
{
    for i in 0..dst.len() {
        dst[i] = src[i];
    }
}

// src over the front of dst, as much of it as fits. Each way has the length of one of the two.
pub fn copy<T: Copy>(dst: &mut [T], src: &[T])
    ensures { dst.new ≡ sets dst.old 0 src.now }
{
    let n = dst.len();
    let k = src.len();
    if k <= n {
        copy_all(&mut dst[..k], src);
    } else {
        copy_all(dst, &src[..n]);
    }
}

// src from `at` on: the part of the buffer from there on is lent to the copy.
pub fn lay(b: &mut [u8], at: usize, src: &[u8])
    ensures { b.new ≡ sets b.old at src.now }
{
    if b.len() < at {
        return;
    }
    copy(&mut b[at..], src);
}

// Zeros from `from` up to `to`; none where `to` is not past `from`.
pub fn zero_fill(b: &mut [u8], from: usize, to: usize)
    ensures { b.new ≡ sets b.old from (replicate (to - from) 0) }
{
    let end = inside(b.len(), 0, to);
    if from < end {
        b[from..end].fill(0);
    }
}

// Whether s begins with m.
pub fn begins(m: &[u8], s: &[u8]) -> bool
    ensures { result ≡ starts m.now s.now }
{
    s.starts_with(m)
}
