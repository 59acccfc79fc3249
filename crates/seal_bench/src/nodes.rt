//! Nodes of 4096 bytes that are sealed or opened, each under a key of its own.
ghost use Rattle.std.specs.Prelude.{◌≡◌, ◌<◌, slice_index, Some};
ghost use Rattle.seal_bench.specs.Nodes.{byte_sum, node_key, plain_text, sealed_tag, sealed_text, tag_sum};

use aes_gcm::{Key, open_in_place, seal_in_place, sealed_opens};

#[derive(Drop)]
struct SealedNode {
    text: [u8; 4096],
    tag: [u8; 16],
}

fn node_key(node: usize) -> Key
    ensures { result ≡ node_key node }
{
    Key::new(&(node as u128).to_be_bytes())
}

fn plain_text() -> [u8; 4096]
    ensures { result ≡ plain_text 4096 }
{
    let mut text = [0; 4096];
    for i in 0..4096usize {
        text[i] = (i % 251) as u8;
    }
    text
}

fn sealed_node(node: usize) -> SealedNode
    ensures text { result.text ≡ sealed_text node }
    ensures tag { result.tag ≡ sealed_tag node }
{
    let mut text = plain_text();
    let tag = seal_in_place(&node_key(node), &[], &mut text);
    SealedNode { text, tag }
}

/// Seals one text under the keys of the numbers below `count`, and answers the sum of the tags.
pub fn seal_nodes(count: usize) -> u128
    ensures { result ≡ tag_sum count }
{
    let plain = plain_text();
    let mut sum = 0;
    for node in 0..count {
        let mut text = plain;
        let tag = seal_in_place(&node_key(node), &[], &mut text);
        sum ^= u128::from_be_bytes(tag);
    }
    sum
}

// A byte of the node's text, or none where it does not open.
fn opened_byte(node: usize, sealed: &SealedNode, at: usize) -> Option<u8>
    requires text { sealed.now.text ≡ sealed_text node }
    requires tag { sealed.now.tag ≡ sealed_tag node }
    requires within { at < 4096 }
    ensures { result ≡ Some (slice_index (plain_text 4096) at) }
{
    sealed_opens();
    let mut text = sealed.text;
    if open_in_place(&node_key(node), &[], &mut text, &sealed.tag) {
        Some(text[at])
    } else {
        None
    }
}

/// Opens two sealed nodes in turn, `count` times in all, and answers the sum of a byte of each.
pub fn open_nodes(count: usize) -> u128
    ensures { result ≡ byte_sum count }
{
    let even = sealed_node(0);
    let odd = sealed_node(1);
    let mut sum = 0;
    for i in 0..count {
        let at = i % 4096;
        let byte = if i % 2 == 0 {
            opened_byte(0, &even, at)
        } else {
            opened_byte(1, &odd, at)
        };
        sum += byte.unwrap_or(0) as u128;
    }
    sum
}
