// Alphabets: 256 flags, bytes that name the letters a string may have (0 out, else in).
ghost use Rattle.std.specs.Prelude.{◌≡◌};
ghost use Rattle.terms.specs.Alphabets.{is_in, all_bytes};

// All 256 bytes.
pub fn all() -> [u8; 256]
    ensures { result ≡ all_bytes }
{
    [1u8; 256]
}

// Whether a byte is a letter of the alphabet.
pub fn is_in(alphabet: &[u8], byte: u8) -> bool
    ensures { result ≡ is_in alphabet.now byte }
{
    let b = usize::from(byte);
    if alphabet.len() <= b {
        return false;
    }
    alphabet[b] != 0
}
