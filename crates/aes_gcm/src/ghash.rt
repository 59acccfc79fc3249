//! GHASH of SP 800-38D: products of blocks, by a table of multiples of the hash key.
ghost use Rattle.std.specs.Prelude.{◌≡◌, ◌*◌, ◌-◌, ◌≤◌, ◌++◌, length, map, replicate, bit_xor};
ghost use Rattle.std.specs.List.{fold};
ghost use Rattle.std.specs.Int.{from_be_bytes, w128};
ghost use Rattle.aes_gcm.specs.Ghash.{times_x, sum_of_shifts, product, horner_step, ghash};
ghost use Rattle.aes_gcm.specs.Multiples.{shifted, IsRow, IsTable, factor};
ghost use Rattle.aes_gcm.specs.Gcm.{blocks_of, padded, hashed_blocks};

/// A row of 16 multiples for each four bits of a block.
type Table = [[u128; 16]; 32];

#[inline(always)]
fn times_x(v: u128) -> u128
    ensures { result ≡ times_x v }
{
    let carry = if v & 1 == 1 {
        0xe100_0000_0000_0000_0000_0000_0000_0000
    } else {
        0
    };
    (v >> 1) ^ carry
}

#[inline(always)]
fn row(v: u128) -> [u128; 16]
    ensures { IsRow result v }
{
    let a = v;
    let b = times_x(a);
    let c = times_x(b);
    let d = times_x(c);
    let cd = c ^ d;
    let ab = a ^ b;
    [
        0,
        d,
        c,
        cd,
        b,
        b ^ d,
        b ^ c,
        b ^ cd,
        a,
        a ^ d,
        a ^ c,
        a ^ cd,
        ab,
        ab ^ d,
        ab ^ c,
        ab ^ cd,
    ]
}

// In place, so that no copy of the table is made.
#[inline(always)]
fn fill_table(table: &mut Table, h: u128)
    ensures table { IsTable table.new }
    ensures factor { factor table.new ≡ h }
{
    let mut v = h;
    for k in 0..32usize {
        table[k] = row(v);
        v = times_x(times_x(times_x(times_x(v))));
    }
}

// The product of half a block, whose bits the 16 rows from `first` on are for.
#[inline(always)]
fn times_half(table: &Table, first: usize, half: u64) -> u128
    requires table { IsTable table.now }
    requires within { first ≤ 16 }
    ensures { result ≡ sum_of_shifts 64 half (shifted (4 * first) (factor table.now)) }
{
    let mut sum = 0;
    for k in 0..16usize {
        sum ^= table[first + k][((half >> (60 - 4 * k)) & 15) as usize];
    }
    sum
}

// The product of a block in two parts, those of its higher and of its lower half.
#[inline(always)]
fn halves(table: &Table, block: u128) -> (u128, u128)
    requires { IsTable table.now }
    ensures { bit_xor result.0 result.1 ≡ product block (factor table.now) }
{
    let high = (block >> 64) as u64;
    let low = (block & 0xffff_ffff_ffff_ffff) as u64;
    (times_half(table, 0, high), times_half(table, 16, low))
}

#[inline(always)]
fn times(table: &Table, block: u128) -> u128
    requires { IsTable table.now }
    ensures { result ≡ product block (factor table.now) }
{
    let (high, low) = halves(table, block);
    high ^ low
}

// Horner's rule: the hash of what `hash` is of, and then the blocks. The hash is kept in two parts, so that
// the sums of both are formed at the same time.
fn add_blocks(table: &Table, hash: u128, blocks: &[[u8; 16]]) -> u128
    requires { IsTable table.now }
    ensures { result ≡ fold (horner_step (factor table.now)) hash (map (from_be_bytes w128) blocks.now) }
{
    let mut high = hash;
    let mut low = 0;
    for block in blocks {
        (high, low) = halves(table, high ^ low ^ u128::from_be_bytes(*block));
    }
    high ^ low
}

// A last block, with zeros at its end.
fn padded_block(rest: &[u8]) -> [u8; 16]
    requires { length rest.now ≤ 16 }
    ensures { result ≡ rest.now ++ replicate (16 - length rest.now) 0 }
{
    let mut block = [0; 16];
    block[..rest.len()].copy_from_slice(rest);
    block
}

fn add_padded(table: &Table, hash: u128, text: &[u8]) -> u128
    requires { IsTable table.now }
    ensures { result ≡ fold (horner_step (factor table.now)) hash (blocks_of (padded text.now)) }
{
    let (blocks, rest) = text.as_chunks::<16>();
    let hash = add_blocks(table, hash, blocks);
    if rest.is_empty() {
        hash
    } else {
        let block = padded_block(rest);
        times(table, hash ^ u128::from_be_bytes(block))
    }
}

/// GHASH (6.4) of an AAD, a ciphertext and their lengths in bits, under the hash key `h`.
pub fn hash(h: u128, aad: &[u8], text: &[u8]) -> u128
    requires aad { length aad.now ≤ 65536 }
    requires text { length text.now ≤ 65536 }
    ensures { result ≡ ghash h (hashed_blocks aad.now text.now) }
{
    let mut table = [[0; 16]; 32];
    fill_table(&mut table, h);
    let hash = add_padded(&table, 0, aad);
    let hash = add_padded(&table, hash, text);
    let lengths = ((8 * aad.len()) as u128) << 64 | (8 * text.len()) as u128;
    times(&table, hash ^ lengths)
}
