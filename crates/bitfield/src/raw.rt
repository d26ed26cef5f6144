// Raw bytes of a held bitfield: 256 of them, of which the first ones are in use. Loops that make bytes go byte by byte; those that only
// look at bits go by words of eight bytes, 32 in all, or by two halves of the bytes at once.
ghost use Rattle.std.specs.Prelude.{◌≡◌, ◌++◌, ℕ, ◌+◌, ◌-◌, ◌*◌, ◌/◌, ◌%◌, ◌^◌, ◌<◌, ◌≤◌, true, eqb, length, take, drop, replicate, slice_index};
ghost use Rattle.std.specs.Int.Count.{ones};
ghost use Rattle.standard.specs.Bytes.{num, le};
ghost use Rattle.standard.specs.Bits.{bit};
ghost use Rattle.bitfield.specs.Body.{bytes_for_lem};
ghost use Rattle.bitfield.specs.Raw.{Raw, clean, mask_of};
ghost use Rattle.bitfield.specs.Facts.{Kept, Put, Word};

use super::body::bytes_for;

// The bytes of a and b put together one by one, as far as they are in use; zero behind them.
pub(crate) fn combine<F: Fn(u8, u8) -> u8>(
    a: &[u8; 256],
    b: &[u8; 256],
    used: usize,
    op: F,
) -> [u8; 256]
    requires few { used ≤ 256 }
    requires callable { F.IsAlwaysCallable op }
    ensures in_use { (k : ℕ) → k < used → F.post op (slice_index a.now k) (slice_index b.now k) (slice_index result k) }
    ensures behind { (k : ℕ) → used ≤ k → slice_index result k ≡ 0 }
{
    let mut out = [0u8; 256];
    for i in 0..used {
        out[i] = op(a[i], b[i]);
    }
    out
}

// The first bytes of a slice, zero behind them.
pub(crate) fn copy_of(bytes: &[u8], used: usize) -> [u8; 256]
    requires few { used ≤ 256 }
    requires there { used ≤ length bytes.now }
    ensures { result ≡ take used bytes.now ++ replicate (256 - used) 0 }
{
    let mut out = [0u8; 256];
    out[..used].copy_from_slice(&bytes[..used]);
    out
}

// The w-th word: one load, with no test of where it ends.
fn word_of(bytes: &[u8; 256], w: usize) -> u64
    requires few { w < 32 }
    requires raw { Raw bytes.now }
    ensures { Word bytes.now (8 * w) result }
{
    let p = 8 * w;
    u64::from_le_bytes([
        bytes[p],
        bytes[p + 1],
        bytes[p + 2],
        bytes[p + 3],
        bytes[p + 4],
        bytes[p + 5],
        bytes[p + 6],
        bytes[p + 7],
    ])
}

// Whether the words from one on are all zero.
pub(crate) fn none_from(bytes: &[u8; 256], from: usize) -> bool
    requires { (from ≤ 32) × Raw bytes.now }
    ensures { result ≡ eqb (num (drop (8 * from) bytes.now)) 0 }
{
    let mut acc = 0u64;
    for w in from..32 {
        acc |= word_of(bytes, w);
    }
    acc == 0
}

// Whether the bytes from one of the first half on are all zero. As many from there on as a half has, and the second half, are all of them:
// so the loop has one length, and the compiler takes it sixteen bytes at a time and lays it out.
fn none_in_halves(bytes: &[u8; 256], from: usize) -> bool
    requires { (from ≤ 128) × Raw bytes.now }
    ensures { result ≡ eqb (num (drop from bytes.now)) 0 }
{
    let mut acc = 0u8;
    for k in 0..128 {
        acc |= bytes[from + k] | bytes[128 + k];
    }
    acc == 0
}

// Nothing set behind an end in the first half. By words: at 64 bits the bytes behind the end then begin at a multiple of sixteen, and counting
// the bits took half the time that it took by bytes.
fn is_clean_low(bytes: &[u8; 256], len: usize) -> bool
    requires { (len < 1024) × Raw bytes.now }
    ensures { result ≡ clean bytes.now len }
{
    let q = len / 64;
    let x = word_of(bytes, q);
    if x >> (len % 64) != 0 {
        return false;
    }
    none_in_halves(bytes, 8 * q + 8)
}

// The same of an end in the second half.
fn is_clean_high(bytes: &[u8; 256], len: usize) -> bool
    requires { (1024 ≤ len) × Raw bytes.now }
    ensures { result ≡ clean bytes.now len }
{
    if len > 2048 {
        return false;
    }
    let q = len / 64;
    if q == 32 {
        return true;
    }
    let x = word_of(bytes, q);
    if x >> (len % 64) != 0 {
        return false;
    }
    none_from(bytes, q + 1)
}

// At most 2,048 bits, and nothing set behind them.
pub(crate) fn is_clean(bytes: &[u8; 256], len: usize) -> bool
    ensures told { result ≡ clean bytes.now len }
    ensures kept { result ≡ true → Kept bytes.now len }
{
    if len < 1024 {
        is_clean_low(bytes, len)
    } else {
        is_clean_high(bytes, len)
    }
}

// The bits of the last byte that len bits use: all eight at lengths 8, 16 and so on, none at length 0.
fn last_byte_mask(len: usize) -> u8
    ensures { result ≡ mask_of len }
{
    if len == 0 {
        return 0;
    }
    255u8 >> ((8 - len % 8) % 8)
}

// Clears what the last byte in use has behind len bits.
pub(crate) fn cut(bytes: &mut [u8; 256], len: usize)
    requires { (len ≤ 2048) × Raw bytes.old × (num bytes.old < 2 ^ (8 * bytes_for_lem len)) }
    ensures { bytes.new ≡ le 256 (num bytes.old % 2 ^ len) }
{
    let used = bytes_for(len);
    if used == 0 {
        return;
    }
    let last = used - 1;
    let x = bytes[last];
    bytes[last] = x & last_byte_mask(len);
}

// A byte, some places up.
fn spread(x: u8, places: usize) -> usize
    requires { places < 8 }
    ensures { (result ≡ x * 2 ^ places) × (result ≤ 255 * 2 ^ places) × (2 ^ places ≤ 128) }
{
    (x as usize) << places
}

fn low_byte(t: usize) -> u8
    ensures { result ≡ t % 256 }
{
    (t & 255) as u8
}

// The bytes n bits up, as far as they are in use: each byte takes what the one before it lost at its top.
pub(crate) fn shifted(a: &[u8; 256], n: usize, used: usize) -> [u8; 256]
    requires { (used ≤ 256) × (n ≤ 8 * used) × Raw a.now }
    ensures { result ≡ le 256 ((num a.now * 2 ^ n) % 256 ^ used) }
{
    let s = n / 8;
    let places = n % 8;
    let mut out = [0u8; 256];
    let mut carry = 0usize;
    for i in s..used {
        let t = spread(a[i - s], places) + carry;
        out[i] = low_byte(t);
        carry = t / 256;
    }
    out
}

fn ones_of(x: u64) -> usize
    ensures { (result ≡ ones x) × (result ≤ 64) }
{
    u64::count_ones(x) as usize
}

// How many bits are set, where none is set behind so many words.
pub(crate) fn ones_in(bytes: &[u8; 256], words: usize) -> usize
    requires { (words ≤ 32) × Raw bytes.now × (num (drop (8 * words) bytes.now) ≡ 0) }
    ensures { result ≡ ones (num bytes.now) }
{
    if words < 2 {
        return ones_of(word_of(bytes, 0));
    }
    let mut sum = 0usize;
    for w in 0..words {
        sum += ones_of(word_of(bytes, w));
    }
    sum
}

// Bit i: bit i mod 8 of byte i/8.
pub(crate) fn bit_at(bytes: &[u8; 256], i: usize) -> bool
    requires { (i < 2048) × Raw bytes.now }
    ensures { result ≡ eqb (num bytes.now / 2 ^ i % 2) 1 }
{
    let x = bytes[i / 8];
    (x >> (i % 8)) & 1 == 1
}

// A byte with its bit j made v.
fn with_bit(x: u8, j: usize, v: bool) -> u8
    requires { j < 8 }
    ensures { result + 2 ^ j * (x / 2 ^ j % 2) ≡ x + 2 ^ j * bit v }
{
    let m = 1u8 << j;
    if v { x | m } else { x & !m }
}

// Makes bit i v.
pub(crate) fn put_bit(bytes: &mut [u8; 256], i: usize, v: bool)
    requires { (i < 2048) × Raw bytes.old }
    ensures { Put bytes.old i v bytes.new }
{
    let q = i / 8;
    let x = bytes[q];
    bytes[q] = with_bit(x, i % 8, v);
}

// Puts the first bytes of a bitfield into a buffer, which keeps the rest.
pub(crate) fn put_raw(out: &mut [u8], bytes: &[u8; 256], used: usize)
    requires { (used ≤ 256) × (used ≤ length out.old) × Raw bytes.now }
    ensures { out.new ≡ take used bytes.now ++ drop used out.old }
{
    out[..used].copy_from_slice(&bytes[..used]);
}
