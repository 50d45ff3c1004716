//! Tests the gates on a single thread: what they count, and which flags they raise.
use agc_ring::{Gate, Open};
use agc_test_support::{Counting, KeyRendezvous, Rendezvous, Slow};
use std::process::Abort;

/// Calls a gate for writes with these numbers, each sent and then received.
fn pass(gate: &impl Gate, numbers: &[u64]) {
    for n in numbers {
        gate.before_send(*n);
        gate.after_receive(*n);
    }
}

#[test]
fn writes_are_counted(rt: HostRuntime) {
    let counting = Counting::new();
    assert!(rt; counting.is_whole());
    pass(&counting, &[1, 2, 3]);
    counting.key_sent(1);
    assert!(rt; counting.is_whole());
    assert!(rt; counting.received() == 3);
}

/// A write that was sent and not received is missed.
#[test]
fn lost_write_is_missed(rt: HostRuntime) {
    let counting = Counting::new();
    counting.before_send(1);
    assert!(rt; !counting.is_whole());
    counting.after_receive(1);
    assert!(rt; counting.is_whole());
}

/// A write that is reported twice, is left out or comes too early is noted permanently.
#[test]
fn writes_out_of_order_are_noted(rt: HostRuntime) {
    for numbers in [[1, 1, 2], [1, 3, 4], [2, 1, 3], [0, 1, 2]] {
        let counting = Counting::new();
        pass(&counting, &numbers);
        assert!(rt; !counting.is_whole());
        assert!(rt; counting.received() == 3);
    }
}

/// The machine reaches the later write before the display has write 1: neither meets the other.
#[test]
fn meeting_on_one_thread(rt: HostRuntime) {
    let meeting = Rendezvous::new(3, 2, 2);
    for n in 1..4 {
        assert!(rt; !meeting.sent.is_up());
        meeting.before_send(n);
    }
    assert!(rt; meeting.sent.is_up());
    assert!(rt; !meeting.received.is_up() && !meeting.machine_met.is_up());
    meeting.after_receive(1);
    assert!(rt; meeting.received.is_up());
    assert!(rt; meeting.display_met.is_up());
    assert!(rt; !meeting.machine_met.is_up());
}

/// A machine that looks meets a display that has write 1; a machine without looks does not.
#[test]
fn machine_meets_display(rt: HostRuntime) {
    for (checks, met) in [(1, true), (0, false)] {
        let meeting = Rendezvous::new(2, checks, 0);
        meeting.before_send(1);
        meeting.after_receive(1);
        meeting.before_send(2);
        assert!(rt; meeting.machine_met.is_up() == met);
        assert!(rt; meeting.sent.is_up() && !meeting.display_met.is_up());
    }
}

/// Key 1 waits for write 1, and write 1 for key 3.
#[test]
fn keys_meet_on_one_thread(rt: HostRuntime) {
    let first_key = KeyRendezvous::new(1);
    first_key.key_sent(1);
    first_key.key_sent(3);
    first_key.before_send(1);
    assert!(rt; first_key.machine_met.is_up() && !first_key.display_met.is_up());

    let first_write = KeyRendezvous::new(1);
    first_write.before_send(1);
    first_write.after_receive(1);
    first_write.key_sent(1);
    assert!(rt; first_write.display_met.is_up() && !first_write.machine_met.is_up());
}

/// These gates let everything through.
#[test]
fn gates_without_flags() {
    pass(&Open, &[1, 2]);
    Open.key_sent(1);
    for gate in [Slow::machine(1), Slow::display(1), Slow::keys(1)] {
        pass(&gate, &[1, 2]);
        gate.key_sent(1);
    }
}
