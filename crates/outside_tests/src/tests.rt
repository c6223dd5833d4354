//! Tests on real files and streams, and on inputs and outputs that fail.

use crate::fakes::{Call, Counted, LettersIn};
use mt_port::{Failed, FileShelf, ReadFault, Sink, StdSink, read_all, write_all};
use std::fs;
use std::test::Fail;

#[test]
fn reads_a_real_file(rt: HostRuntime) -> Result<(), Fail> {
    let name = "mt_port_reads_a_real_file.txt";
    fs::write(&rt, name, "two\nlines\n")?;
    let mut shelf = FileShelf::new(&rt);
    let text = read_all(rt.alloc(), &mut shelf, name, 10);
    let longer = read_all(rt.alloc(), &mut shelf, name, 9);
    fs::remove_file(&rt, name)?;
    let missing = read_all(rt.alloc(), &mut shelf, name, 10);
    let empty = read_all(rt.alloc(), &mut shelf, "/dev/null", 10);

    assert_eq!(rt; text?.as_slice(), b"two\nlines\n".as_slice());
    assert!(rt; matches!(longer, Err(ReadFault::TooLong)));
    assert!(rt; matches!(missing, Err(ReadFault::Failed)));
    assert!(rt; empty?.is_empty());
    Ok(())
}

// An input that is cut off by a failure isn't whole, and one that was interrupted is.
#[test]
fn a_read_that_fails_in_mid_stream_fails(rt: HostRuntime) {
    let cut: &[Call] = &[Call::Moved(3), Call::Failed, Call::Moved(0)];
    let broken_off: &[Call] = &[
        Call::Interrupted,
        Call::Moved(3),
        Call::Interrupted,
        Call::Moved(2),
        Call::Moved(0),
    ];
    for (calls, want) in [(cut, Err(ReadFault::Failed)), (broken_off, Ok(5))] {
        let input = LettersIn::new(&rt, calls);
        let mut shelf = FileShelf::new(&input);
        let text = read_all(rt.alloc(), &mut shelf, "-", 10);
        assert_eq!(rt; text.map(|text| text.len()), want);
    }
}

#[test]
fn an_output_that_takes_nothing_fails(rt: HostRuntime) {
    let narrow: &[Call] = &[Call::Moved(3), Call::Moved(3)];
    let full: &[Call] = &[Call::Moved(0), Call::Moved(0)];
    for (calls, want) in [(narrow, Ok(3)), (full, Err(Failed))] {
        let output = Counted::new(calls);
        let mut sink = StdSink::new(&output);
        assert_eq!(rt; sink.write(b"abcd"), want);
        assert_eq!(rt; sink.write(b""), Ok(0));
    }
}

// An output that fails or takes nothing has what it took before, though it would take more, and one that was interrupted has all.
#[test]
fn a_write_that_fails_in_mid_stream_fails(rt: HostRuntime) {
    let cut: &[Call] = &[Call::Moved(3), Call::Failed, Call::Moved(2)];
    let full: &[Call] = &[Call::Moved(4), Call::Moved(0), Call::Moved(1)];
    let broken_off: &[Call] = &[
        Call::Interrupted,
        Call::Moved(3),
        Call::Interrupted,
        Call::Moved(2),
    ];
    for (calls, want, taken) in [
        (cut, Err(Failed), 3),
        (full, Err(Failed), 4),
        (broken_off, Ok(()), 5),
    ] {
        let output = Counted::new(calls);
        let mut sink = StdSink::new(&output);
        assert_eq!(rt; write_all(&mut sink, b"abcde"), want);
        assert_eq!(rt; output.taken(), taken);
    }
}
