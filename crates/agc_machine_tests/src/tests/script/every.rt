//! Tests lines that stand for several events.
use super::*;

#[test]
fn every_line(rt: HostRuntime) {
    let whole = [raise(5, 8), raise(15, 8), raise(25, 8)];
    lists(&rt, b"every 10 5 25 raise 8", &whole);
    let two = [raise(5, 8), raise(7, 9), raise(15, 8)];
    lists(&rt, b"every 10 5 24 raise 8\nevery 1 7 7 raise 9", &two);
}

#[test]
fn every_interleaves(rt: HostRuntime) {
    let file = b"every 10 0 30 raise 8\n10 raise 1\nevery 10 10 20 raise 2";
    let want = [
        raise(0, 8),
        raise(10, 8),
        raise(10, 1),
        raise(10, 2),
        raise(20, 8),
        raise(20, 2),
        raise(30, 8),
    ];
    lists(&rt, file, &want);
}

#[test]
fn every_faults(rt: HostRuntime) {
    equal(
        &rt,
        parse(&rt, b"every 1 0 65535 raise 1").len(),
        MOST_EVENTS,
    );
    refuses(
        &rt,
        &[
            (b"every 1 0 65536 raise 1", 1, FaultKind::TooMany),
            (b"every 1 0 1000000000000 raise 1", 1, FaultKind::TooMany),
            (b"every 0 0 5 raise 1", 1, FaultKind::OutOfRange),
            (b"every 5 10 9 raise 1", 1, FaultKind::OutOfRange),
            (b"every 5 10", 1, FaultKind::UnknownWord),
            (b"every x 0 5 raise 1", 1, FaultKind::BadCycle),
            (
                b"20 raise 1\nevery 1 19 30 raise 1",
                2,
                FaultKind::OutOfOrder,
            ),
            (b"every 5 raise 8", 1, FaultKind::BadCycle),
            (b"every 5", 1, FaultKind::UnknownWord),
            (b"every", 1, FaultKind::UnknownWord),
            (b"20 raise 1\nevery 5 10", 2, FaultKind::OutOfOrder),
            (b"20 raise 1\nevery 5 10 x", 2, FaultKind::BadCycle),
            (b"every 1 0 9 every 1 0 9 key 1", 1, FaultKind::UnknownWord),
            (b"every 0 0 5 raise x", 1, FaultKind::BadNumber),
        ],
    );
    accepts(
        &rt,
        &[
            b"every 5 0 100 raise 1\n0 raise 1",
            b"every 1 0 65534 raise 1\n0 raise 1",
        ],
    );
}
