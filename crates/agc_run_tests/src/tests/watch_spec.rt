//! Tests texts that give the addresses of tables, and texts that do not.
use agc_panel::{Table, WatchFault, WatchSpec};

#[test]
fn reads_seven_octal_numbers(rt: HostRuntime) {
    let spec = WatchSpec {
        core_bank: 1,
        core_offset: 0,
        sets: 2,
        lst1_bank: 1,
        lst1_offset: 0o100,
        lst2_bank: 1,
        lst2_offset: 0o200,
    };
    assert!(rt; WatchSpec::read("1,0,2,1,100,1,200") == Some(spec));
    assert!(rt; WatchSpec::read("000001,000000,2,1,000100,01,200") == Some(spec));
    let largest = WatchSpec::read("0,0,777777,0,0,0,777777");
    assert!(rt; largest.is_some_and(|spec| spec.sets == 0o777777));
}

#[test]
fn reads_no_other_text(rt: HostRuntime) {
    for text in [
        "",
        "1,2",
        "1,0,2,1,100,1",
        "1,0,2,1,100,1,200,0",
        "1,0,2,1,100,1,200,",
        "1,0,2,1,100,1,",
        "1,,2,1,100,1,200",
        "0000001,0,2,1,100,1,200",
        "1,0,2,1,100,1,0000200",
        "8,0,2,1,100,1,200",
        "+1,0,2,1,100,1,200",
        "1, 0,2,1,100,1,200",
        "1,0,2,1,100,1,200\n",
    ] {
        assert!(rt; WatchSpec::read(text).is_none(), "{text}");
    }
}
