//! Numbers that are drawn one after another.
ghost use Rattle.std.specs.Prelude.{◌≡◌, ◌<◌, ◌^◌};
ghost use Rattle.trace_maker.specs.Drawn.{number_after, value_of};

const FACTOR: u64 = 6_364_136_223_846_793_005;

const STEP: u64 = 1_442_695_040_888_963_407;

#[tactic(auto, unfolding(crate::specs::Drawn::number_after))]
pub(crate) fn number_after(number: u64) -> u64
    ensures { result ≡ number_after number }
{
    number.wrapping_mul(FACTOR).wrapping_add(STEP)
}

/// The value that a number gives.
pub(crate) fn value_of(number: u64) -> u32
    ensures value { result ≡ value_of number }
    ensures small { result < 2 ^ 31 }
{
    (number >> 33) as u32
}
