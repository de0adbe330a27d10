// The lines of a file by steps of a referee, with what a step must leave.
use reports::{Referee, write_fault};
use std::alloc::{AllocError, Global};
use transcripts::unread::Unread;

// More steps than a file has records: a referee that goes on beyond them is stopped here, so that this ends whatever a step gives.
const STEPS: u32 = 20_000;

// What a buffer holds before a step.
const MARK: u8 = b'#';

// What a step gives.
#[derive(Clone, Copy, Debug, PartialEq, Eq)]
enum Given<'a> {
    // A line, behind which more may follow.
    Line(&'a [u8]),
    // The line of a fault.
    Fault(&'a [u8]),
    // No line: the file is at its end.
    End,
}

// The lines that steps give, to the end or to the first step that leaves something wrong.
pub fn lines(heap: Global, file: &[u8]) -> Result<Vec<u8>, AllocError> {
    let mut referee = Referee::new(heap, Unread::new(file))?;
    let mut lines = Vec::new(heap);
    for _ in 0..STEPS {
        let mut buffer = [MARK; 140];
        match step(&mut referee, &mut buffer) {
            Some(Given::Line(line)) => lines.extend_from_slice(line)?,
            Some(Given::Fault(line)) => {
                lines.extend_from_slice(line)?;
                break;
            }
            Some(Given::End) | None => break,
        }
    }
    Ok(lines)
}

// What a step gives in a buffer of marks; none where it leaves something wrong, for which there is no more to say.
fn step<'a>(referee: &mut Referee, buffer: &'a mut [u8]) -> Option<Given<'a>> {
    if !refuses_small(referee) {
        return None;
    }
    match referee.step(buffer) {
        Ok(0) => Some(Given::End),
        Ok(length) => {
            let (line, behind) = buffer.split_at_checked(length)?;
            is_marked(behind).then_some(Given::Line(line))
        }
        // The step meets its fault again, and leaves the buffer as it is.
        Err(fault) if referee.step(buffer) == Err(fault) && is_marked(buffer) => {
            let length = write_fault(fault, buffer).ok()?;
            buffer.get(..length).map(Given::Fault)
        }
        Err(_) => None,
    }
}

// Whether a buffer of 127 bytes is refused with 19, and left as it is. By its number, which is tried too.
fn refuses_small(referee: &mut Referee) -> bool {
    let mut small = [MARK; 127];
    match referee.step(&mut small) {
        Err(fault) => fault.number() == 19 && is_marked(&small),
        Ok(_) => false,
    }
}

fn is_marked(bytes: &[u8]) -> bool {
    bytes.iter().all(|byte| *byte == MARK)
}
