ghost use Rattle.std.specs.Prelude.{◌≡◌, ◌++◌, OnOk, OnErr};
ghost use Rattle.report_lines.specs.Digests.{digest_line};
ghost use Rattle.text_lines.specs.Continued.{Continues};

use text_lines::{Piece, write_pieces};
use wire_fields::NoMemory;

/// A digest in lower-case hexadecimal.
#[tactic(auto, unfolding(crate::specs::Digests::digest_line))]
pub fn write_digest_line(out: &mut Vec<u8>, digest: &[u8; 32]) -> Result<(), NoMemory>
    ensures ok { OnOk result (out.new.items ≡ out.old.items ++ digest_line digest.now) }
    ensures err { OnErr result (Continues out.old.items out.new.items) }
{
    let mut digits = [0; 64];
    // Thirty-two bytes take 64 digits, so this cannot fail.
    let _ = hex::encode_to_slice(digest.as_slice(), &mut digits);
    write_pieces(
        out,
        &[
            Piece::Text(b"digest "),
            Piece::Text(&digits),
            Piece::Text(b"\n"),
        ],
    )
}
