// Nim products below 256 by Conway's rule, found with no use of `nimbers`: a ⊗ b is the smallest
// number that is none of (a' ⊗ b) ^ (a ⊗ b') ^ (a' ⊗ b') with a' < a and b' < b.
ghost use Rattle.std.specs.Prelude.{◌≡◌, ℕ, ◌<◌, true, false, IfSome, MatchOption, slice_index_or};

use anyhow::Context;
use std::alloc::Global;

// So many numbers are multiplied, from 0 on.
pub const NUMBERS: usize = 256;

// The products of one number with each number below 256.
pub type Row = [u8; NUMBERS];

// The rows of the numbers below 256.
pub fn rows(heap: Global) -> anyhow::Result<Vec<Row>> {
    let mut rows = Vec::new(heap);
    // A loop: each is found from those before it.
    for _ in 0..NUMBERS {
        let row = next_row(&rows).context("a product of numbers below 256 is not below 256")?;
        rows.push(row)?;
    }
    Ok(rows)
}

// The row of a number, after those of all smaller ones.
fn next_row(earlier: &[Row]) -> Option<Row> {
    let mut row = [0; NUMBERS];
    // A loop: each is found from those before it.
    for b in 0..=u8::MAX {
        row[b as usize] = next_product(earlier, &row, b)?;
    }
    Some(row)
}

// The product with `b`, from the earlier rows and from this one's products with smaller numbers.
fn next_product(earlier: &[Row], row: &Row, b: u8) -> Option<u8> {
    let mut excluded = [false; NUMBERS];
    for above in earlier {
        exclude(&mut excluded, above, row, b);
    }
    u8::try_from(smallest_missing(&excluded)?).ok()
}

// Marks (a' ⊗ b) ^ (a ⊗ b') ^ (a' ⊗ b') for each b' < b, where `above` is the row of a'.
fn exclude(excluded: &mut [bool; NUMBERS], above: &Row, row: &Row, b: u8) {
    let end = b as usize;
    let above_b = above[end];
    for (p, q) in above[0..end].iter().zip(&row[0..end]) {
        excluded[(above_b ^ *p ^ *q) as usize] = true;
    }
}

// Flags and no list: a list of some ten thousand numbers would be searched for each smaller one.
fn smallest_missing(excluded: &[bool; NUMBERS]) -> Option<usize>
    ensures below { MatchOption result ((k : ℕ) → k < 256 → slice_index_or excluded.now k false ≡ true) (λ n. (k : ℕ) → k < n → slice_index_or excluded.now k false ≡ true) }
    ensures missing { IfSome result (λ n. slice_index_or excluded.now n false ≡ false) }
{
    excluded.iter().position(|taken| !*taken)
}
