//! How much of a stream a hit in the next piece may need.
ghost use Rattle.std.specs.Prelude.{◌≡◌, ◌<◌, length};
ghost use Rattle.lit_base.specs.declared.limits.TheConstants.{MAX_LITERAL_LEN};
ghost use Rattle.lit_plan.specs.Bounds.{HasBounds, carry_of};

use lit_base::LitList;

/// How many bytes of a literal may precede a piece in which it ends: one less than the longest literal has.
pub fn carry(list: &LitList) -> usize
    requires { 0 < length list.now.texts }
    ensures value { result ≡ carry_of list.now }
    ensures small { result < MAX_LITERAL_LEN }
    ensures bounds { HasBounds list.now }
{
    list.normal_law();
    list.longest() - 1
}
