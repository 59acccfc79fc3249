//! The places of the nodes, by formulas.
ghost use Rattle.std.specs.Prelude.{◌≡◌, ◌^◌, ◌<◌, ◌≤◌};
ghost use Rattle.node_layout.specs.Places.{data_place, mht_place, up, node_count, parent_of, slot_of};

/// The number of data node `d`, below 2^29. Node k stands at byte 4096·k of the file.
pub fn data_place(d: u64) -> u64
    requires { d < 2 ^ 29 }
    ensures { result ≡ data_place d }
{
    2 + d + d / 96
}

/// The number of hash-tree node `m`, below 2^29. The root is hash-tree node 0.
pub fn mht_place(m: u64) -> u64
    requires { m < 2 ^ 29 }
    ensures { result ≡ mht_place m }
{
    1 + 97 * m
}

/// The hash-tree node that has the entry of hash-tree node `m`, above 0 and below 2^29.
pub fn mht_parent(m: u64) -> u64
    requires low { 0 < m }
    requires high { m < 2 ^ 29 }
    ensures { result ≡ up m }
{
    (m - 1) / 32
}

/// How many nodes a content of `size` bytes, at most 2^40, has, node 0 among them.
pub fn node_count(size: u64) -> u64
    requires { size ≤ 2 ^ 40 }
    ensures { result ≡ node_count size }
{
    if size <= 3072 {
        return 1;
    }
    let data = (size - 3072).div_ceil(4096);
    1 + data + data.div_ceil(96)
}

/// The number of the node that has the entry of node `k`, from 2 on and below 2^30.
pub fn parent_of(k: u64) -> u64
    requires low { 2 ≤ k }
    requires high { k < 2 ^ 30 }
    ensures { result ≡ parent_of k }
{
    let mht = (k - 1) / 97;
    if (k - 1) % 97 == 0 {
        mht_place(mht_parent(mht))
    } else {
        mht_place(mht)
    }
}

/// The place of the entry of node `k`, from 2 on, in its parent.
pub fn slot_of(k: u64) -> usize
    requires { 2 ≤ k }
    ensures value { result ≡ slot_of k }
    ensures within { result < 128 }
{
    let rest = (k - 1) % 97;
    if rest == 0 {
        96 + (((k - 1) / 97 - 1) % 32) as usize
    } else {
        (rest - 1) as usize
    }
}
