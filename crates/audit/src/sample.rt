// Numbers to try the laws on.
use std::alloc::{AllocError, Global};
use tallies::Generator;

const EDGES: [u32; 11] = [
    0,
    1,
    2,
    15,
    16,
    255,
    256,
    65535,
    65536,
    0x8000_0000,
    0xffff_ffff,
];

const GENERATED: u32 = 4096;

#[derive(Clone, Copy, Debug, PartialEq, Eq)]
pub struct Triple {
    pub a: u32,
    pub b: u32,
    pub c: u32,
}

// All triples of edge numbers, and then generated ones.
pub fn triples(heap: Global) -> Result<Vec<Triple>, AllocError> {
    let mut triples = Vec::new(heap);
    // Loops: with a chain it stayed open that the nested closures may be called at each turn of the collection.
    for a in EDGES {
        for b in EDGES {
            for c in EDGES {
                triples.push(Triple { a, b, c })?;
            }
        }
    }
    let mut generator = Generator::new(1);
    // A loop: the generator changes at each number.
    for _ in 0..GENERATED {
        triples.push(next_triple(&mut generator))?;
    }
    Ok(triples)
}

// Each length from 1 to 32 bits comes about equally often.
fn next_number(generator: &mut Generator) -> u32 {
    let shift = generator.step() >> 27;
    generator.step() >> shift
}

fn next_triple(generator: &mut Generator) -> Triple {
    let a = next_number(generator);
    let b = next_number(generator);
    let c = next_number(generator);
    Triple { a, b, c }
}
