// Signed numbers, which stand in a recipe in two's complement. Each has a name since its contract speaks of the signed number (`to_z`).
ghost use Rattle.std.specs.Prelude.{◌≡◌, true};
ghost use Rattle.std.specs.Int.{w64};
ghost use Rattle.std.proofs.Common.{to_z};
ghost use Rattle.recipe_types.specs.Parts.{near};
ghost use Rattle.recipe_steps.specs.Parts.{Biased};

use recipe_types::BIAS;

// Places are near if they are at most this far from 0.
pub const MAX_PLACE: u64 = 1048576;

// A signed number as it stands in a recipe.
pub fn signed(z: i64) -> u64
    ensures { to_z w64 result ≡ z }
{
    z.cast_unsigned()
}

// Whether a signed number is a place that is near.
#[tactic(auto, using(crate::proofs::Complement::near_abs))]
pub fn is_near(x: u64) -> bool
    ensures { result ≡ near (to_z w64 x) }
{
    x.cast_signed().unsigned_abs() <= MAX_PLACE
}

// A signed number that is near, with the bias added, so that it is not negative.
#[tactic(auto, using(crate::proofs::Complement::biased_is))]
pub fn biased(x: u64) -> u64
    requires { near (to_z w64 x) ≡ true }
    ensures { Biased (to_z w64 x) result }
{
    x.wrapping_add(BIAS)
}
