//! Parts of a slice, which may lie past its end.
ghost use Rattle.std.specs.Prelude.{◌≡◌, ◌≤◌, take, drop, slice_index};

/// The byte at a rank, or 0 past the end.
pub fn byte_at(text: &[u8], at: usize) -> u8
    ensures { result ≡ slice_index text.now at }
{
    if at < text.len() { text[at] } else { 0 }
}

/// What is left behind `n` bytes.
pub fn behind(text: &[u8], n: usize) -> &[u8]
    ensures { result.now ≡ drop n text.now }
{
    if n <= text.len() {
        text.split_at(n).1
    } else {
        text.split_at(text.len()).1
    }
}
