//! AES-128 on one block.
ghost use Rattle.std.specs.Prelude.{◌≡◌, ℕ, ◌<◌, ◌≤◌, List, ◌++◌, map, bit_xor};
ghost use Rattle.aes_gcm.specs.Field.{sub_byte};
ghost use Rattle.aes_gcm.specs.Cipher.{cipher, four_words, mix_columns, schedule, schedule_core, shift_rows, sub_bytes, xor_bytes};
ghost use Rattle.aes_gcm.specs.Tower.{absorbed, standard};
ghost use Rattle.aes_gcm.specs.KeptKey.{KeptKeys, shifted_and_mixed};

use crate::tower::{once_and_twice, sub_bytes, sub_linear, to_tower};
use std::marker::Model;
use std::simd::prelude::*;

/// An AES-128 key of 16 bytes, with its eleven round keys as the rounds use them.
#[derive(Drop)]
pub struct Key {
    first: u8x16,
    middle: [[u8; 16]; 9],
    last: u8x16,
}

impl Model for Key {
    ghost Value = { List ℕ };

    ghost view = { λ key. map standard key.first };

    ghost invariant = { λ key. KeptKeys (map standard key.first) key.middle key.last };
}

impl Key {
    /// The key of these bytes, with its schedule (FIPS 197, 5.2).
    pub fn new(bytes: &[u8; 16]) -> Key
        ensures { result ≡ bytes.now }
    {
        let words = expand_key(bytes);
        let mut middle = [[0; 16]; 9];
        for i in 0..9usize {
            middle[i] = absorb(round_key(&words, i + 1)).to_array();
        }
        Key {
            first: to_tower(u8x16::from_array(*bytes)),
            middle,
            last: u8x16::splat(0x63) ^ round_key(&words, 10),
        }
    }
}

// Round constants, the powers of x (FIPS 197, 5.2).
static ROUND_CONSTANTS: [u8; 10] = [0x01, 0x02, 0x04, 0x08, 0x10, 0x20, 0x40, 0x80, 0x1b, 0x36];

// What is added to word i - 4 to give word i, from word i - 1 (FIPS 197, 5.2).
fn schedule_core(i: usize, word: [u8; 4]) -> [u8; 4]
    requires after_key { 4 ≤ i }
    requires before_end { i < 44 }
    ensures { result ≡ schedule_core i word }
{
    if i % 4 == 0 {
        let substituted = sub_word([word[1], word[2], word[3], word[0]]);
        [
            substituted[0] ^ ROUND_CONSTANTS[i / 4 - 1],
            substituted[1],
            substituted[2],
            substituted[3],
        ]
    } else {
        word
    }
}

// SubWord (FIPS 197, 5.2).
fn sub_word(word: [u8; 4]) -> [u8; 4]
    ensures { result ≡ map sub_byte word }
{
    let [first, second, third, fourth, ..] = sub_bytes(u8x16::from_array([
        word[0], word[1], word[2], word[3], 0, 0, 0, 0, 0, 0, 0, 0, 0, 0, 0, 0,
    ]))
    .to_array();
    [first, second, third, fourth]
}

fn xor_words(a: [u8; 4], b: [u8; 4]) -> [u8; 4]
    ensures { result ≡ xor_bytes a b }
{
    [a[0] ^ b[0], a[1] ^ b[1], a[2] ^ b[2], a[3] ^ b[3]]
}

// KeyExpansion (FIPS 197, 5.2).
fn expand_key(bytes: &[u8; 16]) -> [[u8; 4]; 44]
    ensures { result ≡ schedule 40 bytes.now }
{
    let mut words = [[0; 4]; 44];
    for i in 0..4 {
        words[i] = [
            bytes[4 * i],
            bytes[4 * i + 1],
            bytes[4 * i + 2],
            bytes[4 * i + 3],
        ];
    }
    for i in 4..44 {
        words[i] = xor_words(words[i - 4], schedule_core(i, words[i - 1]));
    }
    words
}

// The round key of four words of the schedule.
fn round_key(words: &[[u8; 4]; 44], round: usize) -> u8x16
    requires { round < 11 }
    ensures { result ≡ four_words words.now round }
{
    let i = 4 * round;
    join_words(words[i], words[i + 1], words[i + 2], words[i + 3])
}

fn join_words(first: [u8; 4], second: [u8; 4], third: [u8; 4], fourth: [u8; 4]) -> u8x16
    ensures { result ≡ first ++ second ++ third ++ fourth }
{
    u8x16::from_array([
        first[0], first[1], first[2], first[3], second[0], second[1], second[2], second[3],
        third[0], third[1], third[2], third[3], fourth[0], fourth[1], fourth[2], fourth[3],
    ])
}

// ShiftRows (FIPS 197, 5.1.2): row r of column c comes from column c + r.
#[inline(always)]
fn shift_rows(state: u8x16) -> u8x16
    ensures { result ≡ shift_rows state }
{
    state.swizzle([0, 5, 10, 15, 4, 9, 14, 3, 8, 13, 2, 7, 12, 1, 6, 11])
}

// ShiftRows and MixColumns (FIPS 197, 5.1.3), where `once` is the state and `twice` its products with 2.
#[inline(always)]
fn shift_and_mix(once: u8x16, twice: u8x16) -> u8x16
    ensures { result ≡ shifted_and_mixed once twice }
{
    let next = (once ^ twice).swizzle([5, 10, 15, 0, 9, 14, 3, 4, 13, 2, 7, 8, 1, 6, 11, 12]);
    let opposite = once.swizzle([10, 15, 0, 5, 14, 3, 4, 9, 2, 7, 8, 13, 6, 11, 12, 1]);
    let last = once.swizzle([15, 0, 5, 10, 3, 4, 9, 14, 7, 8, 13, 2, 11, 12, 1, 6]);
    (shift_rows(twice) ^ next) ^ (opposite ^ last)
}

// A round key as it is kept: in the basis of the tower, with the S-box's constant.
fn absorb(round_key: u8x16) -> u8x16
    ensures { map absorbed result ≡ round_key }
{
    to_tower(u8x16::splat(0x63) ^ round_key)
}

// The first AddRoundKey (FIPS 197, 5.1.4), to the basis of the tower.
#[inline(always)]
fn first_round(block: u8x16, key: u8x16) -> u8x16
    ensures { map standard result ≡ xor_bytes block (map standard key) }
{
    to_tower(block) ^ key
}

// A round of the cipher (FIPS 197, 5.1) in the basis of the tower.
#[inline(always)]
fn round(state: u8x16, key: u8x16) -> u8x16
    ensures { map standard result ≡ xor_bytes (mix_columns (shift_rows (sub_bytes (map standard state)))) (map absorbed key) }
{
    let (once, twice) = once_and_twice(state);
    shift_and_mix(once, twice) ^ key
}

// The last round, which mixes no columns, and leaves the basis of the tower.
#[inline(always)]
fn last_round(state: u8x16, key: u8x16) -> u8x16
    ensures { result ≡ xor_bytes (shift_rows (sub_bytes (map standard state))) (map (bit_xor 0x63) key) }
{
    shift_rows(sub_linear(state)) ^ key
}

/// AES-128 of one block (FIPS 197, 5.1).
pub fn encrypt_block(key: &Key, block: &[u8; 16]) -> [u8; 16]
    ensures { result ≡ cipher key.now block.now }
{
    let mut state = first_round(u8x16::from_array(*block), key.first);
    for i in 0..9usize {
        state = round(state, u8x16::from_array(key.middle[i]));
    }
    last_round(state, key.last).to_array()
}

/// AES-128 of each of four blocks, whose steps are independent.
pub(crate) fn encrypt_four(key: &Key, blocks: [u8x16; 4]) -> [u8x16; 4]
    ensures { result ≡ map (cipher key.now) blocks }
{
    let [mut first, mut second, mut third, mut fourth] = blocks;
    first = first_round(first, key.first);
    second = first_round(second, key.first);
    third = first_round(third, key.first);
    fourth = first_round(fourth, key.first);
    for i in 0..9usize {
        let round_key = u8x16::from_array(key.middle[i]);
        first = round(first, round_key);
        second = round(second, round_key);
        third = round(third, round_key);
        fourth = round(fourth, round_key);
    }
    [
        last_round(first, key.last),
        last_round(second, key.last),
        last_round(third, key.last),
        last_round(fourth, key.last),
    ]
}
