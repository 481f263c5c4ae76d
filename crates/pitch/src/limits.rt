// The Amiga limits.
ghost use Rattle.std.specs.Prelude.{◌≡◌};
ghost use Rattle.pitch.specs.Limits.{limited};

// A frequency within the Amiga limits, where they are on.
#[tactic(auto, using(crate::proofs::Clamped::zero_is, crate::proofs::Clamped::low_is, crate::proofs::Clamped::high_is), unfolding(crate::specs::Limits::limited))]
pub fn clamp_amiga(x: f32, on: bool) -> f32
    ensures { result ≡ limited on x }
{
    if on {
        if x > 0.0 {
            let low = 14317456.0f32 / 856.0;
            if x < low {
                return low;
            }
            let high = 14317456.0f32 / 113.0;
            if high < x {
                return high;
            }
        }
    }
    x
}
