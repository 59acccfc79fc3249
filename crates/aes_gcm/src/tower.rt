//! Bytes of the field of FIPS 197 in another basis, in which SubBytes is a few shuffles of 16 bytes.
//!
//! In this basis a byte is two nibbles over a field of 16 elements. Inverses in that field are read from a
//! table of 16 bytes, where 128 stands for the inverse of 0, and reads as 0. No memory is read at a place
//! that depends on the bytes.
ghost use Rattle.std.specs.Prelude.{◌≡◌, map, bit_xor};
ghost use Rattle.std.specs.Simd.Lanes.{zip2};
ghost use Rattle.aes_gcm.specs.Field.{times, sub_byte};
ghost use Rattle.aes_gcm.specs.Tower.{entry, first_index, high_nibble, low_nibble, second_index, standard, sub_linear};

use std::simd::prelude::*;

// Inverses of nibbles. 128 stands for that of 0.
const INVERSE: [u8; 16] = [128, 1, 8, 13, 15, 6, 5, 14, 2, 12, 11, 10, 9, 3, 7, 4];

// The same, each times a constant of the tower.
const SCALED: [u8; 16] = [128, 7, 11, 15, 6, 10, 4, 1, 9, 8, 5, 2, 12, 14, 13, 3];

// The lower and the higher nibble of a byte of FIPS 197, in this basis.
const IN_LOW: [u8; 16] = [
    0, 112, 42, 90, 152, 232, 178, 194, 8, 120, 34, 82, 144, 224, 186, 202,
];

const IN_HIGH: [u8; 16] = [
    0, 77, 124, 49, 125, 48, 1, 76, 129, 204, 253, 176, 252, 177, 128, 205,
];

// SubBytes without its constant, in this basis: the sum of two entries.
const ONCE_FIRST: [u8; 16] = [
    0, 62, 80, 203, 143, 225, 155, 177, 68, 245, 42, 20, 110, 122, 223, 165,
];

const ONCE_SECOND: [u8; 16] = [
    0, 35, 226, 250, 21, 212, 24, 54, 239, 217, 46, 13, 193, 204, 247, 59,
];

// Twice that.
const TWICE_FIRST: [u8; 16] = [
    0, 36, 113, 11, 198, 147, 122, 226, 205, 47, 152, 188, 85, 233, 183, 94,
];

const TWICE_SECOND: [u8; 16] = [
    0, 41, 225, 10, 64, 136, 235, 105, 74, 35, 130, 171, 200, 99, 161, 194,
];

// SubBytes without its constant, in the basis of FIPS 197.
const OUT_FIRST: [u8; 16] = [
    0, 199, 189, 111, 23, 109, 210, 208, 120, 168, 2, 197, 122, 191, 170, 21,
];

const OUT_SECOND: [u8; 16] = [
    0, 106, 187, 95, 165, 116, 228, 207, 250, 53, 43, 65, 209, 144, 30, 142,
];

#[inline(always)]
fn look(table: [u8; 16], at: u8x16) -> u8x16
    ensures { result ≡ map (entry table) at }
{
    u8x16::from_array(table).swizzle_dyn(at & u8x16::splat(0x8f))
}

#[inline(always)]
fn low(x: u8x16) -> u8x16
    ensures { result ≡ map low_nibble x }
{
    x & u8x16::splat(15)
}

#[inline(always)]
fn high(x: u8x16) -> u8x16
    ensures { result ≡ map high_nibble x }
{
    x >> 4
}

#[inline(always)]
fn xor(x: u8x16, y: u8x16) -> u8x16
    ensures { result ≡ zip2 bit_xor x y }
{
    x ^ y
}

// Bytes in the basis of the tower.
#[inline(always)]
pub(crate) fn to_tower(bytes: u8x16) -> u8x16
    ensures { map standard result ≡ bytes }
{
    xor(look(IN_LOW, low(bytes)), look(IN_HIGH, high(bytes)))
}

// The two nibbles of each byte from which the tables of SubBytes read.
#[inline(always)]
fn indices(state: u8x16) -> (u8x16, u8x16)
    ensures first { result.0 ≡ map first_index state }
    ensures second { result.1 ≡ map second_index state }
{
    let bottom = low(state);
    let top = high(state);
    let scaled = look(SCALED, bottom);
    let sum = xor(top, bottom);
    let first = xor(look(INVERSE, xor(look(INVERSE, top), scaled)), sum);
    let second = xor(look(INVERSE, xor(look(INVERSE, sum), scaled)), top);
    (first, second)
}

/// SubBytes without its constant, and twice that, all in the basis of the tower.
#[inline(always)]
pub(crate) fn once_and_twice(state: u8x16) -> (u8x16, u8x16)
    ensures once { map standard result.0 ≡ map sub_linear (map standard state) }
    ensures twice { map standard result.1 ≡ map (times 2) (map sub_linear (map standard state)) }
{
    let (first, second) = indices(state);
    (
        xor(look(ONCE_FIRST, first), look(ONCE_SECOND, second)),
        xor(look(TWICE_FIRST, first), look(TWICE_SECOND, second)),
    )
}

/// SubBytes without its constant, from the basis of the tower to that of FIPS 197.
#[inline(always)]
pub(crate) fn sub_linear(state: u8x16) -> u8x16
    ensures { result ≡ map sub_linear (map standard state) }
{
    let (first, second) = indices(state);
    xor(look(OUT_FIRST, first), look(OUT_SECOND, second))
}

/// SubBytes (FIPS 197, 5.1.1).
#[inline(always)]
pub(crate) fn sub_bytes(bytes: u8x16) -> u8x16
    ensures { result ≡ map sub_byte bytes }
{
    u8x16::splat(0x63) ^ sub_linear(to_tower(bytes))
}
