//! Tests programs of a few orders: what they leave in registers and cells.
use super::*;

/// TS with overflow: the cell gets +0 (the overflow is corrected), A gets +1, one order is skipped.
#[test]
fn ts_skips_on_overflow(rt: HostRuntime) {
    let listing = "
4000 34006 CA 4006
4001 64007 AD 4007
4002 54100 TS 100
4003 14003 TCF 4003
4004 14004 TCF 4004
4006 37777
4007 00001";
    let mut processor = processor_with(&rt, listing);
    processor.store.poke(0, 0o100, Narrow::with_bits(0o12345));
    run(&mut processor, 20);
    equal(&rt, cell(&processor, 0o100), 0o00000);
    equal(&rt, registers(&processor), [0o000001, 0, 0, 0o4005]);
}

/// CA +1, AD -1, CCS A: the sum is -0, which skips three orders and leaves +0 in A.
#[test]
fn zero_sums_and_ccs(rt: HostRuntime) {
    let listing = "
4000 34007 CA 4007
4001 64010 AD 4010
4002 10000 CCS A
4003 14003 TCF 4003
4004 14004 TCF 4004
4005 14005 TCF 4005
4006 14006 TCF 4006
4007 00001
4010 77776";
    let mut processor = processor_with(&rt, listing);
    run(&mut processor, 20);
    equal(&rt, registers(&processor), [0o000000, 0, 0, 0o4007]);
}

/// TC 4010, then TC Q: Q's old word, the return address 04001, runs as TC 4001.
#[test]
fn tc_through_q(rt: HostRuntime) {
    let listing = "
4000 04010 TC 4010
4001 14001 TCF 4001
4010 00002 TC Q";
    let mut processor = processor_with(&rt, listing);
    run(&mut processor, 10);
    equal(&rt, registers(&processor), [0, 0, 0o000003, 0o4002]);
}

/// DCA and DAS: (0, 1) and (37777, 37777) overflow, which A keeps as +1.
#[test]
fn double_add(rt: HostRuntime) {
    let listing = "
4000 00006 EXTEND
4001 34007 DCA 4006
4002 20101 DAS 100
4003 14003 TCF 4003
4006 37777
4007 37777";
    let mut processor = processor_with(&rt, listing);
    processor.store.poke(0, 0o101, Narrow::with_bits(0o1));
    run(&mut processor, 10);
    equal(
        &rt,
        [cell(&processor, 0o100), cell(&processor, 0o101)],
        [0, 0],
    );
    equal(&rt, registers(&processor), [0o000001, 0, 0, 0o4004]);
}

/// MSU of +0 and the cell 00001 gives 177776, and of 40000 and +0 the difference -16384: 137777. Between them DIM of
/// that +1 gives -0.
#[test]
fn dim_and_modular_difference(rt: HostRuntime) {
    let listing = "
4000 00006 EXTEND
4001 20100 MSU 100
4002 54102 TS 102
4003 00006 EXTEND
4004 26100 DIM 100
4005 34011 CA 4011
4006 00006 EXTEND
4007 20101 MSU 101
4010 14010 TCF 4010
4011 40000";
    let mut processor = processor_with(&rt, listing);
    processor.store.poke(0, 0o100, Narrow::with_bits(0o1));
    run(&mut processor, 16);
    equal(&rt, cell(&processor, 0o102), 0o77776);
    equal(&rt, cell(&processor, 0o100), 0o77777);
    equal(&rt, processor.store.a().bits(), 0o137777);
}

/// With EB 0 the window names the registers: 1402 is Q and takes all of 040000, 1400 is A, so ADS 1400 doubles the +1
/// that the overflow left.
#[test]
fn window_with_bank_zero(rt: HostRuntime) {
    let listing = "
4000 34006 CA 4006
4001 64007 AD 4007
4002 55402 TS 1402
4003 14003 TCF 4003
4004 27400 ADS 1400
4005 14005 TCF 4005
4006 37777
4007 00001";
    let mut processor = processor_with(&rt, listing);
    run(&mut processor, 10);
    equal(&rt, registers(&processor), [0o000002, 0, 0o040000, 0o4006]);
    equal(&rt, processor.channel_cell(2).bits(), 0o00000);
}

/// 37777 + 37777 is 077776. MASK A leaves it, WRITE 2 and READ 2 move it whole through Q, but MASK with -0 in a
/// narrow cell corrects it to 37776.
#[test]
fn wide_logic(rt: HostRuntime) {
    let listing = "
4000 34012 CA 4012
4001 64012 AD 4012
4002 70000 MASK A
4003 00006 EXTEND
4004 01002 WRITE 2
4005 74013 MASK 4013
4006 54100 TS 100
4007 00006 EXTEND
4010 00002 READ 2
4011 14011 TCF 4011
4012 37777
4013 77777";
    let mut processor = processor_with(&rt, listing);
    run(&mut processor, 20);
    equal(&rt, cell(&processor, 0o100), 0o37776);
    equal(&rt, registers(&processor), [0o077776, 0, 0o077776, 0o4012]);
}

/// TS A with overflow skips and leaves A. TS Z with the overflowed 044006 sets Z to 4006 after the skip, so no order
/// is skipped there, and A keeps +1.
#[test]
fn ts_to_a_and_z_with_overflow(rt: HostRuntime) {
    let listing = "
4000 34010 CA 4010
4001 64011 AD 4011
4002 54000 TS A
4003 14003 TCF 4003
4004 54005 TS Z
4005 14005 TCF 4005
4006 14006 TCF 4006
4007 14007 TCF 4007
4010 37777
4011 04007";
    let mut processor = processor_with(&rt, listing);
    run(&mut processor, 10);
    equal(&rt, registers(&processor), [0o000001, 0, 0, 0o4007]);
}

/// INDEX A adds 3 to TCF 4002.
#[test]
fn index_changes_the_next_order(rt: HostRuntime) {
    let listing = "
4000 34006 CA 4006
4001 50000 INDEX A
4002 14002 TCF 4002
4003 14003 TCF 4003
4004 14004 TCF 4004
4005 14005 TCF 4005
4006 00003";
    let mut processor = processor_with(&rt, listing);
    run(&mut processor, 10);
    equal(&rt, registers(&processor), [0o000003, 0, 0, 0o4006]);
}

/// The extracode INDEX has twelve address bits (4007), and leaves the extracode state on: WRITE 0 becomes WRITE 10.
#[test]
fn index_keeps_the_extracode_state(rt: HostRuntime) {
    let listing = "
4000 34006 CA 4006
4001 00006 EXTEND
4002 54007 INDEX 4007
4003 01000 WRITE 0
4004 14004 TCF 4004
4006 12345
4007 00010";
    let mut processor = processor_with(&rt, listing);
    run(&mut processor, 5);
    equal(
        &rt,
        processor.run(5),
        Ran::Wrote(0o10, Narrow::with_bits(0o12345)),
    );
    equal(&rt, registers(&processor), [0o012345, 0, 0, 0o4005]);
}

/// CA CYR reads the poked word, and rotates it once more in its cell.
#[test]
fn reading_edits_again(rt: HostRuntime) {
    let listing = "
4000 30020 CA CYR
4001 14001 TCF 4001";
    let mut processor = processor_with(&rt, listing);
    processor.store.poke(0, 0o20, Narrow::with_bits(0o3));
    run(&mut processor, 10);
    equal(&rt, processor.store.a().bits(), 0o000003);
    equal(&rt, cell(&processor, 0o20), 0o40001);
}
