// The laws of a field, tried on triples of numbers.
use crate::sample::Triple;
use crate::tried::tried;
use nimbers::{inverse, product, sum};
use tallies::Section;

pub fn laws(triples: &[Triple]) -> [Section; 4] {
    [
        tried(
            "the product with the inverse is 1, and 0 has none",
            triples,
            |t| match inverse(t.a) {
                Some(i) => product(t.a, i) == 1,
                None => t.a == 0,
            },
        ),
        tried("the product is commutative", triples, |t| {
            product(t.a, t.b) == product(t.b, t.a)
        }),
        tried("the product is associative", triples, |t| {
            product(product(t.a, t.b), t.c) == product(t.a, product(t.b, t.c))
        }),
        tried("the product distributes over the sum", triples, |t| {
            product(t.a, sum(t.b, t.c)) == sum(product(t.a, t.b), product(t.a, t.c))
        }),
    ]
}
