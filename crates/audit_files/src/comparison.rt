// Compares reports with the lines that they should be, and counts.
use crate::{plain, steps};
use std::alloc::AllocError;
use tallies::Trial;

// Counts whether the report of a file, and its steps one by one, are what its plain reading gives.
pub fn compare(trial: &mut Trial, file: &[u8]) -> Result<(), AllocError> {
    let expected = plain::lines(trial.heap, file)?;
    let told = reports::report(trial.heap, file)?;
    let stepped = steps::lines(trial.heap, file)?;
    let expected = expected.as_bytes();
    trial.count(told.as_slice() == expected && stepped.as_slice() == expected);
    Ok(())
}

// Counts whether the plain reading of a file and its report are these lines.
pub fn expect(trial: &mut Trial, file: &[u8], lines: &[u8]) -> Result<(), AllocError> {
    let read = plain::lines(trial.heap, file)?;
    let told = reports::report(trial.heap, file)?;
    trial.count(read.as_bytes() == lines);
    trial.count(told.as_slice() == lines);
    Ok(())
}
