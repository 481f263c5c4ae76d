// The sample offset.
ghost use Rattle.std.specs.Prelude.{◌≡◌, pos};
ghost use Rattle.std.specs.Float.{binary64};
ghost use Rattle.std.specs.Float.Ieee.{of_int};
ghost use Rattle.pitch.specs.Offset.{offset_of};

// The offset of a sample, folded into its loop.
#[tactic(auto, unfolding(crate::specs::Offset::offset_of))]
fn fold(offset: u32, looped: bool, start: u32, end: u32, length: u32) -> u32
    ensures { result ≡ offset_of offset looped start end length }
{
    if looped & (start < end) & (end <= length) {
        if end <= offset {
            return start + (offset - start) % (end - start);
        }
    }
    offset
}

// The same as a position in the sample.
pub fn resolve_sample_offset(offset: u32, looped: bool, start: u32, end: u32, length: u32) -> f64
    ensures { result ≡ of_int binary64 (pos (offset_of offset looped start end length)) }
{
    fold(offset, looped, start, end, length) as f64
}
