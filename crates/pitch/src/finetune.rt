// S2x: sixteen c5 speeds.
ghost use Rattle.std.specs.Prelude.{◌≡◌, ◌<◌};
ghost use Rattle.pitch.specs.Finetune.{finetune_of};

const FINETUNES: [u32; 16] = [
    7895, 7941, 7985, 8046, 8107, 8169, 8232, 8280, 8363, 8413, 8463, 8529, 8581, 8651, 8723, 8757,
];

// The c5 speed of finetune x.
#[tactic(auto, unfolding(crate::specs::Finetune::finetune_of))]
pub fn finetune(x: usize) -> u32
    requires { x < 16 }
    ensures { result ≡ finetune_of x }
{
    FINETUNES[x]
}
