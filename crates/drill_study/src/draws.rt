// Numbers that are drawn one after the other, each from a state.
ghost use Rattle.std.specs.Prelude.{◌≡◌, ◌<◌, ◌≤◌, ◌^◌};
ghost use Rattle.drill_study.specs.Draws.{next, drawn};

/// The next state.
#[tactic(auto, unfolding(crate::specs::Draws::next))]
pub fn next(z: u32) -> u32
    ensures value { result ≡ next z }
    ensures bound { result < 2 ^ 31 }
{
    ((1_103_515_245 * z as u64 + 12_345) % 2_147_483_648) as u32
}

/// The number below `k` that is drawn with a state.
#[tactic(auto, unfolding(crate::specs::Draws::drawn))]
pub fn drawn(z: u32, k: u32) -> u32
    requires { 1 ≤ k }
    ensures value { result ≡ drawn z k }
    ensures bound { result < k }
{
    z / 65_536 % k
}
