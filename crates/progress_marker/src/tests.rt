// Values from the format: a version as eight bytes, the highest first, and no bytes for version 0.
use super::*;
use std::test::Fail;

#[test]
fn a_token_is_eight_bytes_the_highest_first(rt: HostRuntime) {
    assert_eq!(rt; Mark { version: 7 }.token(), [0, 0, 0, 0, 0, 0, 0, 7]);
    let mark = Mark {
        version: 0x0102_0304_0506_0708,
    };
    assert_eq!(rt; mark.token(), [1, 2, 3, 4, 5, 6, 7, 8]);
    assert_eq!(rt; Mark::default().token(), [0; 8]);
}

#[test]
fn reads_tokens(rt: HostRuntime) {
    assert_eq!(rt; Mark::read(&[]), Ok(Mark { version: 0 }));
    assert_eq!(rt; Mark::read(&[0; 8]), Ok(Mark { version: 0 }));
    assert_eq!(rt;
        Mark::read(&[0, 0, 0, 0, 0, 0, 0, 7]),
        Ok(Mark { version: 7 })
    );
    assert_eq!(rt; Mark::read(&[0xff; 8]), Ok(Mark { version: u64::MAX }));
}

#[test]
fn refuses_other_lengths(rt: HostRuntime) {
    assert_eq!(rt; Mark::read(&[0, 0, 7]), Err(BadToken { len: 3 }));
    assert_eq!(rt; Mark::read(&[0; 7]), Err(BadToken { len: 7 }));
    assert_eq!(rt; Mark::read(&[0; 9]), Err(BadToken { len: 9 }));
}

#[test]
fn a_read_token_is_its_mark(rt: HostRuntime) {
    for version in [0, 1, 255, 256, u64::MAX] {
        let mark = Mark { version };
        assert_eq!(rt; Mark::read(&mark.token()), Ok(mark));
    }
}

#[test]
fn shows_a_bad_token(rt: HostRuntime) -> Result<(), Fail> {
    let text = format!(in rt.alloc(); "{}", BadToken { len: 3 })?;
    assert_eq!(rt; text.as_str(), "a progress token has 0 or 8 bytes, not 3");
    Ok(())
}
