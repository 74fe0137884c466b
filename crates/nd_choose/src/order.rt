//! The order over loads and speeds.

ghost use Rattle.std.specs.Prelude.{◌↔◌, IsTrue};
ghost use Rattle.nd_choose.specs.Order.{Beats};

/// Whether `load_a` taken slots at `speed_a` come before `load_b` at `speed_b` in the choice's
/// order: the lesser load per speed first, and of equal ones the greater speed. The comparison is
/// exact, by cross products in 128 bits, for all loads and all speeds.
pub fn beats(load_a: u32, speed_a: u64, load_b: u32, speed_b: u64) -> bool
    ensures { IsTrue result ↔ Beats load_a speed_a load_b speed_b }
{
    let ours = u128::from(load_a) * u128::from(speed_b);
    let theirs = u128::from(load_b) * u128::from(speed_a);
    ours < theirs || (ours == theirs && speed_a > speed_b)
}
