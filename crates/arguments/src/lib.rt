// What the entries ask beside the checks of a mesh: tests of their arguments, and the minimum piece that is offered for one of them.
#![tactic(auto)]

ghost use Rattle.std.specs.Prelude.{◌≡◌};

pub mod tests;

// The minimum piece that is offered: three elements.
pub fn minimum_piece() -> usize
    ensures { result ≡ 3 }
{
    3
}
