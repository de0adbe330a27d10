// The lines of a whole file.
ghost use Rattle.std.specs.Prelude.{◌≡◌, length, IfOk, if◌then◌else◌, Ok, Err};
ghost use Rattle.transcripts.specs.Faults.{fault_at};
ghost use Rattle.transcripts.specs.declared.fault.Fault.TheVariants.{SmallBuffer};
ghost use Rattle.reports.specs.Lines.{in_front, too_small};
ghost use Rattle.reports.specs.Reports.{fault_line, Reported};

use crate::lines::{Line, is_small};
use crate::referee::Referee;
use std::alloc::{AllocError, Global};
use transcripts::fault::Fault;
use transcripts::unread::Unread;

// Writes the line of a fault into a buffer, and gives its length; only a buffer below 128 bytes is refused.
pub fn write_fault(fault: Fault, line: &mut [u8]) -> Result<usize, Fault>
    ensures length { result ≡ (if too_small (length line.old) then Err (SmallBuffer (fault_at fault)) else Ok (length (fault_line fault))) }
    ensures buffer { line.new ≡ (if too_small (length line.old) then line.old else in_front (fault_line fault) line.old) }
{
    if is_small(line) {
        return Err(Fault::SmallBuffer(fault.at()));
    }
    Ok(Line::from(fault).put(line))
}

// All the lines of a file: to its end line, or to the line of its first fault.
pub fn report(heap: Global, file: &[u8]) -> Result<Vec<u8>, AllocError>
    ensures { IfOk result (λ v. Reported file.now v.items) }
{
    let mut referee = Referee::new(heap, Unread::new(file))?;
    let mut lines = Vec::new(heap);
    // A loop, since it ends in two ways: behind the end record, and at a fault.
    loop {
        match referee.tell_next() {
            Ok(Some(told)) => {
                let mut line = Line::new();
                told.write(&mut line);
                lines.extend_from_slice(line.as_bytes())?;
            }
            Ok(None) => return Ok(lines),
            Err(fault) => {
                lines.extend_from_slice(Line::from(fault).as_bytes())?;
                return Ok(lines);
            }
        }
    }
}
