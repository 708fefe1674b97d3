// Slices of bytes: the first of them, a copy, and whether two hold the same.
#![tactic(auto)]

ghost use Rattle.std.specs.Prelude.{◌≡◌, take};
ghost use Rattle.slices.specs.Lists.{same, front};

// The first n bytes, or all where there are fewer.
pub fn first(bytes: &[u8], n: usize) -> &[u8]
    ensures { result.now ≡ take n bytes.now }
{
    &bytes[..n.min(bytes.len())]
}

// Two lists of bytes are the same. No early end: the loop is then a few wide instructions.
pub fn is_same(a: &[u8], b: &[u8]) -> bool
    ensures { result ≡ same a.now b.now }
{
    if a.len() != b.len() {
        return false;
    }
    let mut alike = true;
    for (i, x) in a.iter().enumerate() {
        alike &= *x == b[i];
    }
    alike
}

// As many bytes of src as fit, at the front of dst. By its index: `copy_from_slice` calls memmove, a name that an archive for C then asks for.
#[tactic(auto, using(crate::proofs::Turns::copied))]
pub fn copy(dst: &mut [u8], src: &[u8])
    ensures { dst.new ≡ front src.now dst.old }
{
    let n = src.len().min(dst.len());
    for i in 0..n {
        dst[i] = src[i];
    }
}
