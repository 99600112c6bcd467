use super::*;
use std::marker::Send;

// A buffer may go to another thread: this takes only what may.
fn may_be_sent<T: Send>(_value: &T) -> bool {
    true
}

#[test]
fn modes_choose_the_safe_imports(rt: HostRuntime) {
    for (mode, declared_pure, want) in [
        (Mode::All, true, true),
        (Mode::All, false, true),
        (Mode::Pure, true, true),
        (Mode::Pure, false, false),
        (Mode::None, true, false),
        (Mode::None, false, false),
    ] {
        assert_eq!(rt;
            deemed(mode, declared_pure),
            want,
            "{mode:?} {declared_pure}"
        );
    }
}

#[test]
fn records_keep_their_arguments(rt: HostRuntime) {
    let rec = CallRec::new(3, &[5, 7], 12);
    let same = CallRec {
        import: 3,
        count: 2,
        args: [5, 7, 0, 0, 0, 0, 0, 0],
        reply: 12,
    };
    assert_eq!(rt; rec, same);
    assert_eq!(rt; rec.args(), [5, 7].as_slice());
    assert_eq!(rt; argument(rec.args(), 1), 7);
    assert_eq!(rt; argument(rec.args(), 2), 0);
    let full = CallRec::new(0, &[1, 2, 3, 4, 5, 6, 7, 8], 0);
    assert_eq!(rt; full.args(), [1, 2, 3, 4, 5, 6, 7, 8].as_slice());
}

#[test]
fn a_buffer_of_two_takes_two_and_again_two(rt: HostRuntime) -> Result<(), NoMemory> {
    let first = CallRec::new(0, &[0xf], 4);
    let second = CallRec::new(1, &[], 1);
    let mut buffer = CallBuf::with_room(rt.alloc(), 2)?;
    assert!(rt; may_be_sent(&buffer));
    assert_eq!(rt; buffer.records().len(), 0);
    buffer.push(first);
    buffer.push(second);
    assert_eq!(rt; buffer.records(), [first, second].as_slice());
    buffer.clear();
    assert_eq!(rt; buffer.records().len(), 0);
    buffer.push(second);
    buffer.push(second);
    assert_eq!(rt; buffer.records(), [second, second].as_slice());
    Ok(())
}
