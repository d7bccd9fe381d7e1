use super::*;
use client_tags::Kind;
use std::test::Fail;

#[test]
fn words(rt: HostRuntime) -> Result<(), Fail> {
    let cases: [(&[u8], &[u8]); 8] = [
        (b"", b"-"),
        (b"-", b"%2D"),
        (b"--", b"--"),
        (b"a b", b"a%20b"),
        (b"\xC3\xA9", b"%C3%A9"),
        (b"%", b"%25"),
        (b"~", b"~"),
        (b"\x7F", b"%7F"),
    ];
    for (text, word) in cases {
        let mut out = Vec::new(rt.alloc());
        write_word(&mut out, text)?;
        assert_eq!(rt; out.as_slice(), word);
    }
    Ok(())
}

#[test]
fn pieces_stand_one_after_another(rt: HostRuntime) -> Result<(), Fail> {
    let mut out = Vec::new(rt.alloc());
    write_text(&mut out, b"mark ")?;
    write_kind(&mut out, Kind::Preference)?;
    write_text(&mut out, b" ")?;
    write_number(&mut out, 18_446_744_073_709_551_615)?;
    write_text(&mut out, b" ")?;
    write_signed(&mut out, -9_223_372_036_854_775_808)?;
    write_pieces(
        &mut out,
        &[
            Piece::Text(b" "),
            Piece::Text(kind_name(Kind::Nigori)),
            Piece::Text(b" "),
            Piece::Text(kind_name(Kind::Password)),
            Piece::Text(b" "),
            Piece::Word(b"a b"),
            Piece::Text(b" "),
            Piece::Number(0),
            Piece::Text(b" "),
            Piece::Signed(-1),
        ],
    )?;
    assert_eq!(rt;
        out.as_slice(),
        b"mark preference 18446744073709551615 -9223372036854775808 nigori password a%20b 0 -1".as_slice()
    );
    Ok(())
}
