// The checksums of filestore.rs over bytes that are lent, and the CRC-16 that closes a PDU: each equal to its definition in `rules_leaves`.
// They are total: any type, any bytes, any number of bytes asked for. A finished number goes on over more bytes (sum_on).
// After cfdp-rs 0.3.0, src/filestore.rs (Apache-2.0); changed, see NOTICE.
#![tactic(auto)]

mod tables;

ghost use Rattle.std.specs.Prelude.{◌≡◌, take};
ghost use Rattle.rules_leaves.specs.Checksum.{modular_from, modular, at_place, modular_at, reversed, crc32_on, checksum_of, sum_on, crc16};
ghost use Rattle.checksum.specs.Tables.{table_from, eights};

use crate::tables::{EIGHTS_16, EIGHTS_32, EIGHTS_32C};

// ---- type 0: the modular checksum

// What a byte adds at a place of its word.
fn at_place(k: u64, b: u8) -> u32
    ensures { result ≡ at_place k b }
{
    let v = b as u32;
    match k % 4 {
        0 => v * 16777216,
        1 => v * 65536,
        2 => v * 256,
        _ => v,
    }
}

// From the sum of the n bytes before these, a byte at a time.
fn modular_bytes(start: u32, n: u64, s: &[u8]) -> u32
    ensures { result ≡ modular_at start n s.now }
{
    let mut sum = start;
    let mut k = n % 4;
    for &b in s {
        sum = sum.wrapping_add(at_place(k, b));
        k = (k + 1) % 4;
    }
    sum
}

// From the sum of whole words before these: a word at a time, the bytes behind the last whole one by themselves.
fn modular_from(start: u32, s: &[u8]) -> u32
    ensures { result ≡ modular_from start s.now }
{
    let mut sum = start;
    let words = s.chunks_exact(4);
    let rest = words.remainder();
    for w in words {
        sum = sum.wrapping_add(u32::from_be_bytes([w[0], w[1], w[2], w[3]]));
    }
    modular_bytes(sum, 0, rest)
}

// From the sum of the n bytes before these: the word that they leave begun is ended first.
fn modular_on(sum: u32, n: u64, s: &[u8]) -> u32
    ensures { result ≡ modular_at sum n s.now }
{
    let wanted = ((4 - n % 4) % 4) as usize;
    if s.len() < wanted {
        return modular_bytes(sum, n, s);
    }
    let (first, rest) = s.split_at(wanted);
    modular_from(modular_bytes(sum, n, first), rest)
}

pub fn calc_modular_checksum(s: &[u8]) -> u32
    ensures { result ≡ modular s.now }
{
    modular_from(0, s)
}

// ---- the CRCs, a byte at a time by a table

// From what the CRC was after the bytes before these: the byte that falls out picks what is added to the rest. Not put into its
// callers, where the table's address is worked out anew in the loop.
#[inline(never)]
fn by_table(t: &[u32; 256], start: u32, s: &[u8]) -> u32
    ensures { result ≡ table_from t.now start s.now }
{
    let mut c = start;
    for &b in s {
        let x = c ^ (b as u32);
        let low = (x % 256) as usize;
        c = (x >> 8) ^ t[low];
    }
    c
}

// ---- types 2 and 3: the reflected CRCs, over the polynomial

// A reflected CRC shifts to the right, so it takes its polynomial with the 32 bits in the other order.
// Of 0x1EDC6F41 (Castagnoli's, CRC-32C):
pub const CRC_32C: u32 = 0x82F6_3B78;
// Of 0x04C11DB7 (Ethernet's, CRC-32):
pub const CRC_32: u32 = 0xEDB8_8320;

// P is the polynomial reversed, t its table. From the number of the bytes before these, 0 where there are none: its final xor is taken back.
fn crc32<const P: u32>(t: &[u32; 256], sum: u32, s: &[u8]) -> u32
    requires { t.now ≡ eights P }
    ensures { result ≡ crc32_on (reversed 32 P 0) sum s.now }
{
    by_table(t, sum ^ 0xFFFF_FFFF, s) ^ 0xFFFF_FFFF
}

// ---- by type

fn checksum_of(kind: u8, s: &[u8]) -> Option<u32>
    ensures { result ≡ checksum_of kind s.now }
{
    // Stays: the type is a number, and any is taken, as the definitions `checksum_of` and `sum_on` have it.
    match kind {
        0 => Some(calc_modular_checksum(s)),
        2 => Some(crc32::<CRC_32C>(&EIGHTS_32C, 0, s)),
        3 => Some(crc32::<CRC_32>(&EIGHTS_32, 0, s)),
        15 => Some(0),
        _ => None,
    }
}

// The checksum of a file's first n bytes; of the whole file where it has no more.
pub fn calculate_checksum(kind: u8, file: &[u8], n: usize) -> Option<u32>
    ensures { result ≡ checksum_of kind (take n file.now) }
{
    checksum_of(kind, &file[..n.min(file.len())])
}

// A number goes on over more bytes: sum is that of the n bytes before these.
pub fn sum_on(kind: u8, sum: u32, n: u64, s: &[u8]) -> u32
    ensures { result ≡ sum_on kind sum n s.now }
{
    match kind {
        0 => modular_on(sum, n, s),
        2 => crc32::<CRC_32C>(&EIGHTS_32C, sum, s),
        3 => crc32::<CRC_32>(&EIGHTS_32, sum, s),
        _ => 0,
    }
}

// ---- CRC-16, not reflected

// Its bits fall out at the top. With its two bytes exchanged, the byte that falls out is the lowest here too.
pub fn crc16(s: &[u8]) -> u16
    ensures { result ≡ crc16 s.now }
{
    (by_table(&EIGHTS_16, 0xFFFF, s) as u16).swap_bytes()
}
