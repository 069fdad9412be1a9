// Numbers in bytes, low byte first, and bytes that are compared.
ghost use Rattle.std.specs.Prelude.{◌≡◌};
ghost use Rattle.kernel.specs.Bytes.{word, same_bytes};

// The number of the eight bytes at an index; 0 where they are not all there.
pub fn word(s: &[u8], at: usize) -> u64
    ensures { result ≡ word s.now at }
{
    if s.len() < 8 || s.len() - 8 < at {
        return 0;
    }
    let mut eight = [0; 8];
    eight.copy_from_slice(&s[at..at + 8]);
    u64::from_le_bytes(eight)
}

// Whether a and b have one length and the same bytes.
pub fn same_bytes(a: &[u8], b: &[u8]) -> bool
    ensures { result ≡ same_bytes a.now b.now }
{
    a == b
}
