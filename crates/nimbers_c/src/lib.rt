// The nim product under C's calling convention, for the benchmark to link.
#![tactic(auto)]

ghost use Rattle.std.specs.Prelude.{◌≡◌};
ghost use Rattle.nimber_field.specs.Nimber.{◌⊗◌};

#[unsafe(no_mangle)]
pub extern "C" fn nimber_product(a: u32, b: u32) -> u32
    ensures { result ≡ a ⊗ b }
{
    nimbers::product(a, b)
}
