//! Small networks, with every wire worked out by hand, and a set of wires.

use omega_wires::{
    WireSet, bit, input_port, module_of, path, rotate_left, rotate_right, switch_of, wire_after,
    wire_before,
};
use test_support::assert_same;

#[test]
fn shuffle_of_eight_wires(rt: HostRuntime) {
    // 000, 001, 010, 011, 100, 101, 110, 111, each with its first bit moved to the end, and with its last bit
    // moved to the front.
    let shuffled: [u8; 8] = [0, 2, 4, 6, 1, 3, 5, 7];
    let back: [u8; 8] = [0, 4, 1, 5, 2, 6, 3, 7];
    let switches: [u8; 8] = [0, 1, 2, 3, 0, 1, 2, 3];
    let ports: [u8; 8] = [0, 0, 0, 0, 1, 1, 1, 1];
    for wire in 0..8_u8 {
        let at = wire as usize;
        assert_same!(rt; rotate_left(3, wire), shuffled[at], wire);
        assert_same!(rt; rotate_right(3, wire), back[at], wire);
        assert_same!(rt; switch_of(3, wire), switches[at], wire);
        assert_same!(rt; input_port(3, wire), ports[at], wire);
    }
    assert_same!(rt; rotate_right(6, 33), 48);
    assert_same!(rt; rotate_left(6, 48), 33);
}

#[test]
fn networks_of_no_stage_and_of_one(rt: HostRuntime) {
    // No stage: one wire, from the processor to the module.
    assert_same!(rt; (rotate_left(0, 0), rotate_right(0, 0)), (0, 0));
    assert_same!(rt; (path(0, 0, 0, 0), module_of(7, 0)), (0, 0));
    // One stage of one switch.
    assert_same!(rt; (rotate_left(1, 1), rotate_right(1, 1)), (1, 1));
    assert_same!(rt; (wire_after(1, 0, 0, 1), wire_after(1, 0, 1, 1)), (1, 1));
    assert_same!(rt; (wire_before(1, 0, 1, 0), wire_before(1, 0, 1, 1)), (0, 1));
}

#[test]
fn message_goes_there_and_back(rt: HostRuntime) {
    // From processor 101 to module 011: 101, shuffled 011, out at 0: 010; shuffled 100, out at 1: 101;
    // shuffled 011, out at 1: 011.
    let wires: [u8; 4] = [5, 2, 5, 3];
    for stage in 0..3_u8 {
        let at = stage as usize;
        assert_same!(rt; wire_after(3, stage, wires[at], 3), wires[at + 1], stage);
        assert_same!(rt; wire_before(3, stage, wires[at + 1], 5), wires[at], stage);
        assert_same!(rt; path(3, 5, 3, stage), wires[at], stage);
    }
    assert_same!(rt; path(3, 5, 3, 3), 3);
}

#[test]
fn way_through_the_largest_network(rt: HostRuntime) {
    // From 110001 to 010110. Each stage shifts in one more bit of the module's number.
    let wires: [u8; 7] = [
        0b110001, 0b100010, 0b000101, 0b001010, 0b010101, 0b101011, 0b010110,
    ];
    for stage in 0..7_u8 {
        assert_same!(rt; path(6, 0b110001, 0b010110, stage), wires[stage as usize], stage);
    }
    assert_same!(rt; module_of(0xFFFF_FFD6, 6), 0b010110);
    // The bits of a number, from the lowest.
    let bits: [u8; 8] = [0, 1, 1, 0, 1, 0, 0, 1];
    for i in 0..8_u8 {
        assert_same!(rt; bit(i, 0b1001_0110), bits[i as usize], i);
    }
}

/// The lowest wire, the highest, and one between them are inserted and removed.
#[test]
fn wires_come_and_go(rt: HostRuntime) {
    let mut set = WireSet::new();
    assert_same!(rt; set.first_from(0), None);
    for wire in [63, 0, 17, 17] {
        assert!(rt; !set.contains(wire) || wire == 17);
        set.insert(wire);
        assert!(rt; set.contains(wire));
    }
    assert!(rt; !set.contains(16));
    for (wire, first) in [
        (0, Some(0)),
        (1, Some(17)),
        (17, Some(17)),
        (18, Some(63)),
        (63, Some(63)),
        (64, None),
        (255, None),
    ] {
        assert_same!(rt; set.first_from(wire), first, wire);
    }
    set.remove(17);
    set.remove(5);
    assert_same!(rt; set.first_from(1), Some(63));
    assert!(rt; set.contains(0));
    set.remove(63);
    set.remove(0);
    assert_same!(rt; set.first_from(0), None);
}
