// Steps of a referee: a small buffer, the bytes behind a line, the end of a file, and a fault.
use reports::{Referee, write_fault};
use std::test::Fail;
use transcripts::fault::Layer;
use transcripts::unread::Unread;

// Rugs, two by two, and the end.
const HEAD_AND_END: &[u8; 18] =
    b"\x0a\x00\x01\x00\x02\x00\x02\x00\x02\x00\x00\x00\x00\x00\x00\x00\x07\x00";

// The same, cut short in the end record.
const CUT_SHORT: &[u8; 17] =
    b"\x0a\x00\x01\x00\x02\x00\x02\x00\x02\x00\x00\x00\x00\x00\x00\x00\x07";

#[test]
fn a_small_buffer_is_refused(rt: HostRuntime) -> Result<(), Fail> {
    let mut referee = Referee::new(rt.alloc(), Unread::new(HEAD_AND_END))?;
    let mut small = [35; 127];
    let Err(fault) = referee.step(&mut small) else {
        return Err(Fail::new("no fault"));
    };
    assert_eq!(rt; fault.number(), 19);
    assert_eq!(rt; fault.layer(), Layer::Referee);
    assert_eq!(rt; fault.at().number, 1);
    assert_eq!(rt; small, [35; 127]);
    let mut line = [35; 128];
    assert_eq!(rt; referee.step(&mut line), Ok(10));
    assert_eq!(rt; &line[0..10], b"1 board 4\n".as_slice());
    assert_eq!(rt; &line[10..128], [35; 118].as_slice());
    Ok(())
}

#[test]
fn nothing_is_written_behind_the_end(rt: HostRuntime) -> Result<(), Fail> {
    let mut referee = Referee::new(rt.alloc(), Unread::new(HEAD_AND_END))?;
    let mut line = [0; 128];
    assert_eq!(rt; referee.step(&mut line), Ok(10));
    assert_eq!(rt; referee.step(&mut line), Ok(6));
    assert_eq!(rt; &line[0..6], b"2 end\n".as_slice());
    let mut last = [35; 200];
    assert_eq!(rt; referee.step(&mut last), Ok(0));
    assert_eq!(rt; referee.step(&mut last), Ok(0));
    assert_eq!(rt; last, [35; 200]);
    Ok(())
}

#[test]
fn a_fault_is_met_again(rt: HostRuntime) -> Result<(), Fail> {
    let mut referee = Referee::new(rt.alloc(), Unread::new(CUT_SHORT))?;
    let mut line = [0; 128];
    assert_eq!(rt; referee.step(&mut line), Ok(10));
    assert!(rt; referee.step(&mut line).is_err());
    let Err(fault) = referee.step(&mut line) else {
        return Err(Fail::new("no fault"));
    };
    assert_eq!(rt; fault.layer(), Layer::Bytes);
    assert_eq!(rt; write_fault(fault, &mut line), Ok(15));
    assert_eq!(rt; &line[0..15], b"2 bad 10 at 14\n".as_slice());
    Ok(())
}
