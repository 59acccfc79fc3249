//! The place calls on the numbers that docs/FORMAT.md lists, and an entry that is put and read.

use node_layout::{
    data_place, entry, mht_parent, mht_place, node_count, parent_of, set_entry, slot_of,
};

#[test]
fn places_and_counts_are_as_listed(rt: HostRuntime) {
    for (d, k) in [(0, 2), (95, 97), (96, 99), (192, 196)] {
        assert!(rt; data_place(d) == k);
    }
    for (m, k) in [(0, 1), (1, 98), (2, 195), (33, 3202)] {
        assert!(rt; mht_place(m) == k);
    }
    for (size, count) in [(0, 1), (3072, 1), (3073, 3), (396_288, 98), (396_289, 100)] {
        assert!(rt; node_count(size) == count);
    }
}

#[test]
fn a_node_has_its_entry_in_its_parent(rt: HostRuntime) {
    assert!(rt; mht_parent(33) == 1);
    for (k, parent, slot) in [
        (2, 1, 0),
        (97, 1, 95),
        (98, 1, 96),
        (99, 98, 0),
        (3202, 98, 96),
    ] {
        assert!(rt; (parent_of(k), slot_of(k)) == (parent, slot));
    }
}

#[test]
fn an_entry_is_put_beside_the_others(rt: HostRuntime) {
    let mut node = [9; 4096];
    set_entry(&mut node, 127, &[1; 16], &[2; 16]);
    assert!(rt; entry(&node, 127) == ([1; 16], [2; 16]));
    assert!(rt; entry(&node, 126) == ([9; 16], [9; 16]));
}
