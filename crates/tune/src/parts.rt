// Bytes written over a lent part.
ghost use Rattle.std.specs.Prelude.{◌≡◌, ◌+◌, ◌≤◌, ◌++◌, length, take, drop};

// Copies the bytes of src from a place on over the whole of part.
pub fn copy_from(part: &mut [u8], src: &[u8], at: usize)
    requires { at + length part.old ≤ length src.now }
    ensures { part.new ≡ take (length part.old) (drop at src.now) }
{
    let end = at + part.len();
    part.copy_from_slice(&src[at..end]);
}

// Writes bytes at a place. The others stay.
pub fn put_at(out: &mut [u8], at: usize, bytes: &[u8])
    requires { at + length bytes.now ≤ length out.old }
    ensures { out.new ≡ take at out.old ++ (bytes.now ++ drop (at + length bytes.now) out.old) }
{
    let end = at + bytes.len();
    out[at..end].copy_from_slice(bytes);
}
