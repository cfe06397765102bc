//! What is known of devices that fail.

use dump_io::faulty::{Fault, INTERRUPTED, Plan, Sink, Source, fails, steps};
use dump_io::watched::Watched;
use std::io::{Read, Write};

/// Returns what each of three reads gives of three bytes, the second of which fails, and whether
/// the device has failed by then.
fn watched_reads() -> [(Option<usize>, bool); 3] {
    let mut input = Watched::new(Source::new(b"abc", fails(1, 2, INTERRUPTED)));
    let mut room = [0; 4];
    let first = input.read(&mut room).ok();
    let first_failed = input.failed();
    let second = input.read(&mut room).ok();
    let second_failed = input.failed();
    let third = input.read(&mut room).ok();
    [
        (first, first_failed),
        (second, second_failed),
        (third, input.failed()),
    ]
}

/// Returns what each of four writes takes, the third of which takes nothing, whether the device has
/// failed by then; whether a flush succeeds after them, and it has failed still; and how many bytes
/// were taken, and whether these are the other writes'.
fn watched_writes() -> ([(Option<usize>, bool); 4], (bool, bool), (usize, bool)) {
    let mut output = Watched::new(Sink::new(b"abef", fails(9, 3, Fault::Nothing)));
    let first = output.write(b"").ok();
    let first_failed = output.failed();
    let second = output.write(b"ab").ok();
    let second_failed = output.failed();
    let third = output.write(b"cd").ok();
    let third_failed = output.failed();
    let fourth = output.write(b"ef").ok();
    let fourth_failed = output.failed();
    let flushed = output.flush().is_ok();
    let failed = output.failed();
    let sink = output.into_device();
    (
        [
            (first, first_failed),
            (second, second_failed),
            (third, third_failed),
            (fourth, fourth_failed),
        ],
        (flushed, failed),
        (sink.taken, sink.as_wanted),
    )
}

// A device that failed is remembered through calls that succeed, and a write of no bytes that
// takes none is no failure.
#[test]
fn watched(rt: HostRuntime) {
    let reads = [(Some(1), false), (None, true), (Some(1), true)];
    assert_eq!(rt; watched_reads(), reads);
    let writes = [
        (Some(0), false),
        (Some(2), false),
        (Some(0), true),
        (Some(2), true),
    ];
    assert_eq!(rt; watched_writes(), (writes, (true, true), (4, true)));
}

/// Returns whether a device is flushed: at first, after a write, after a flush that fails, and
/// after one that doesn't.
fn watched_flushes() -> [bool; 4] {
    let mut output = Watched::new(Sink::new(b"ab", fails(9, 2, INTERRUPTED)));
    let first = output.is_flushed();
    let _written = output.write(b"ab").ok();
    let second = output.is_flushed();
    let _failed = output.flush().ok();
    let third = output.is_flushed();
    let _flushed = output.flush().ok();
    [first, second, third, output.is_flushed()]
}

#[test]
fn watched_flush(rt: HostRuntime) {
    assert_eq!(rt; watched_flushes(), [true, false, false, true]);
}
