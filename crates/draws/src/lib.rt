// Draws from a 32-bit seed (02 n).
#![tactic(auto)]

ghost use Rattle.std.specs.Prelude.{◌≡◌};
ghost use Rattle.draws.specs.Draws.{next};

// The seed after a draw, which is the draw.
pub fn draw(seed: u32) -> u32
    ensures { result ≡ next seed }
{
    std::num::wrapping_add_u32(seed, 2654435769)
}
