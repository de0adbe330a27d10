// The field of 32-bit nimbers: the theorems on which nim products, and the games above them, rest.
#![tactic(auto)]

ghost use Rattle.std.specs.Prelude.{◌^◌};
ghost use Rattle.nimber_field.specs.Field.{Field};
ghost use Rattle.nimber_field.specs.Nimber.{Conway, Only, AllMet, ◌⊕◌, ◌⊗◌};

// The two constants of the field.
#[derive(Clone, Copy, Debug, PartialEq, Eq)]
pub struct Units {
    pub zero: u32,
    pub one: u32,
}

// The 32-bit numbers with nim sum and nim product are a field, with these units.
// The product keeps Conway's rule, and is the only one that does; every number below a product is met.
pub fn field() -> Units
    ensures field { Field (2 ^ 32) ◌⊕◌ ◌⊗◌ result.zero result.one }
    ensures conway { Conway ◌⊗◌ }
    ensures only { Only ◌⊗◌ }
    ensures met { AllMet }
{
    Units { zero: 0, one: 1 }
}
