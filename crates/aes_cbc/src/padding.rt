// The padding of a text to whole blocks (RFC 5652, section 6.3).
ghost use Rattle.std.specs.Prelude.{◌≡◌, ◌<◌, ◌≤◌, ℕ, ◌↔◌, length, replicate, IsTrue, MatchOption};
ghost use Rattle.aes_cbc.specs.Padding.{padded, EndsInPadding};

// The last block of a text, from what is left after its whole blocks.
pub(crate) fn padded_block(rest: &[u8]) -> [u8; 16]
    requires { length rest.now < 16 }
    ensures { result ≡ padded rest.now }
{
    let mut block = [16 - rest.len() as u8; 16];
    block[..rest.len()].copy_from_slice(rest);
    block
}

// The number of bytes that pad the text in its last block.
pub(crate) fn padding_of(block: &[u8; 16]) -> Option<usize>
    ensures { MatchOption result ((size : ℕ) → EndsInPadding block.now size → ⊥)
        (EndsInPadding block.now) }
{
    let last = block[15];
    let size = last as usize;
    if !is_padding_size(size) {
        return None;
    }
    if are_all(&block[16 - size..], last) {
        Some(size)
    } else {
        None
    }
}

// Tells whether a padding has so many bytes.
fn is_padding_size(size: usize) -> bool
    ensures { IsTrue result ↔ ((1 ≤ size) × (size ≤ 16)) }
{
    1 <= size && size <= 16
}

// Tells whether each of these bytes is that one.
fn are_all(bytes: &[u8], value: u8) -> bool
    ensures { IsTrue result ↔ (bytes.now ≡ replicate (length bytes.now) value) }
{
    bytes.iter().all(|byte| *byte == value)
}
