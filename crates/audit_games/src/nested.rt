// Mixtures and products inside each other, some with parts that have no cells.
use crate::findings::Findings;
use crate::shipped::cells;
use crate::trial::{Choice, Trial};
use anyhow::Context;
use games::{Ruler, Take, Turtles, Twins};
use piles::{Mix, Pile, Product};
use std::alloc::Global;

const WIDTHS: [u32; 7] = [0, 1, 2, 3, 4, 6, 65];

const SET: u32 = 0b1011;

pub fn piles(heap: Global) -> anyhow::Result<Findings> {
    let mut trial = Trial::new("nested piles", Choice::Any, heap);
    for w in WIDTHS {
        for h in WIDTHS {
            Rows::new(w, h).try_all(&mut trial)?;
        }
    }
    Ok(trial.findings)
}

fn mixed(a: u32, b: u32) -> u32 {
    a.saturating_add(b)
}

fn multiplied(a: u32, b: u32) -> u32 {
    a.saturating_mul(b)
}

// Two widths of rows, and how many cells a row of each has.
#[derive(Clone, Copy, Debug, PartialEq, Eq)]
struct Rows {
    w: u32,
    h: u32,
    a: u32,
    b: u32,
}

impl Rows {
    fn new(w: u32, h: u32) -> Rows {
        Rows {
            w,
            h,
            a: cells(w),
            b: cells(h),
        }
    }

    fn try_all(self, trial: &mut Trial) -> anyhow::Result<()> {
        self.try_mixtures(trial)?;
        self.try_products(trial)?;
        self.try_mixtures_in_products(trial)?;
        self.try_products_in_mixtures(trial)?;
        self.try_numbered(trial)
    }

    // Three games side by side.
    fn try_mixtures(self, trial: &mut Trial) -> anyhow::Result<()> {
        let Rows { w, h, a, b } = self;
        let left = Mix::new(Mix::new(Ruler::new(w), Twins::new(h)), Turtles::new(w));
        trial.examine(&left, mixed(a, mixed(b, a)))?;
        let right = Mix::new(Take::new(h, SET), Mix::new(Turtles::new(w), Twins::new(h)));
        trial.examine(&right, mixed(b, mixed(a, b)))
    }

    // Three factors.
    fn try_products(self, trial: &mut Trial) -> anyhow::Result<()> {
        let Rows { w, h, a, b } = self;
        let left = Product::new(Product::new(Twins::new(w), Turtles::new(h)), Ruler::new(w));
        trial.examine(&left, multiplied(a, multiplied(b, a)))?;
        let right = Product::new(
            Take::new(h, SET),
            Product::new(Ruler::new(w), Turtles::new(h)),
        );
        trial.examine(&right, multiplied(b, multiplied(a, b)))
    }

    fn try_mixtures_in_products(self, trial: &mut Trial) -> anyhow::Result<()> {
        let Rows { w, h, a, b } = self;
        let upper = Mix::new(Twins::new(w), Turtles::new(h));
        let lower = Mix::new(Ruler::new(h), Take::new(w, SET));
        trial.examine(
            &Product::new(upper, lower),
            multiplied(mixed(a, b), mixed(b, a)),
        )?;
        let corners = Product::new(Twins::new(w), Twins::new(h));
        let deep = Product::new(Mix::new(corners, Ruler::new(h)), Take::new(w, SET));
        trial.examine(&deep, multiplied(mixed(multiplied(a, b), b), a))
    }

    fn try_products_in_mixtures(self, trial: &mut Trial) -> anyhow::Result<()> {
        let Rows { w, h, a, b } = self;
        let left = Product::new(Twins::new(w), Ruler::new(h));
        let right = Product::new(Turtles::new(h), Take::new(w, SET));
        trial.examine(
            &Mix::new(left, right),
            mixed(multiplied(a, b), multiplied(b, a)),
        )?;
        let inner = Product::new(Ruler::new(w), Mix::new(Turtles::new(h), Twins::new(w)));
        let deep = Mix::new(inner, Take::new(h, SET));
        trial.examine(&deep, mixed(multiplied(a, mixed(b, a)), b))
    }

    // Numbered piles as parts, made by their numbers.
    fn try_numbered(self, trial: &mut Trial) -> anyhow::Result<()> {
        let Rows { w, h, a, b } = self;
        let rugs = Pile::new(2, w, h, SET).context("pile 2 is missing")?;
        let by_twins = Pile::new(6, w, h, SET).context("pile 6 is missing")?;
        let both = Mix::new(by_twins, rugs);
        trial.examine(&both, mixed(multiplied(mixed(a, b), 4), multiplied(a, b)))?;
        trial.examine(
            &Product::new(rugs, Turtles::new(3)),
            multiplied(multiplied(a, b), 3),
        )
    }
}
