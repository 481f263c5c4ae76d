// Volumes and pans.
ghost use Rattle.std.specs.Prelude.{◌≡◌};
ghost use Rattle.channel.specs.LevelLimits.{volume_limit};
ghost use Rattle.channel.specs.Levels.{peak, load_peak, raised, fast_slid, volume_slid, stereo_pan, set_pan};

pub fn clamp_pcm_volume(v: u16) -> u8
    ensures { result ≡ peak v }
{
    v.min(63) as u8
}

// The most that a channel's volume can be.
pub fn volume_limit(adlib: bool) -> u8
    ensures { result ≡ volume_limit adlib }
{
    if adlib { 64 } else { 63 }
}

// The volume that an instrument loads.
pub fn load_peak(adlib: bool, v: u8) -> u8
    ensures { result ≡ load_peak adlib v }
{
    v.min(volume_limit(adlib))
}

fn raise(v: u8, x: u8) -> u8
    ensures { result ≡ raised v x }
{
    v.saturating_add(x).min(63)
}

#[tactic(auto, unfolding(crate::specs::Levels::fast_slid))]
fn fast_slide(v: u8, x: u8, y: u8) -> u8
    ensures { result ≡ fast_slid v x y }
{
    match (x, y) {
        (0, 0) | (15, _) | (_, 15) => v,
        (_, 0) => raise(v, x),
        _ => v.saturating_sub(y),
    }
}

// Dxy on tick 0.
#[tactic(auto, unfolding(crate::specs::Levels::volume_slid))]
pub fn slide_volume(v: u8, x: u8, y: u8, fast: bool) -> u8
    ensures { result ≡ volume_slid v x y fast }
{
    match (x, y) {
        (15, 15) | (15, 0) => raise(v, 15),
        (0, 15) => v.saturating_sub(15),
        (15, _) => v.saturating_sub(y),
        (_, 15) => raise(v, x),
        _ if fast => fast_slide(v, x, y),
        _ => v,
    }
}

// SAx: the bank's own side or the other, the middle, or no change.
#[tactic(auto, unfolding(crate::specs::Levels::stereo_pan))]
pub fn stereo_pan(p: u8, right: bool, pan: u8) -> u8
    ensures { result ≡ stereo_pan p right pan }
{
    if p < 4 {
        let own_side = p % 2 == 0;
        return if own_side == right { 15 } else { 0 };
    }
    if p < 8 { 7 } else { pan }
}

// X: an absolute pan.
pub fn set_pan(info: u8) -> u8
    ensures { result ≡ set_pan info }
{
    (info as u16 * 15 / 128).min(15) as u8
}
