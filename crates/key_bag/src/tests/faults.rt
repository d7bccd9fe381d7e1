use super::named_bag;
use super::rows::{NAMED, SEALED};
use crate::*;
use nigori::UnsealFault;
use std::alloc::Global;
use std::test::Fail;
use sync_specifics::Sealed;
use wire_fields::{NoMemory, Octets};

const IV: [u8; 16] = [7; 16];

fn sealed(alloc: Global, name: &[u8], blob: &[u8]) -> Result<Sealed, NoMemory> {
    Ok(Sealed {
        key_name: Octets::from_slice(alloc, name)?,
        blob: Octets::from_slice(alloc, blob)?,
    })
}

// The fault of a blob under the first named key.
fn unseal_fault(alloc: Global, blob: &[u8]) -> Result<Option<UnsealFault>, NoMemory> {
    let bag = named_bag(alloc)?;
    let (_, name) = &NAMED[0];
    let sealed = sealed(alloc, name.as_slice(), blob)?;
    match bag.unseal_any(&sealed) {
        Err(AnyFault::Unseal(fault)) => Ok(Some(fault)),
        _ => Ok(None),
    }
}

#[test]
fn a_text_of_an_unknown_name_is_refused(rt: HostRuntime) -> Result<(), Fail> {
    let alloc = rt.alloc();
    let bag = named_bag(alloc)?;
    let (_, _, _, blob) = SEALED[0];
    let text = sealed(alloc, b"unknown", blob)?;
    let unknown = Octets::from_slice(alloc, b"unknown")?;
    let Err(AnyFault::NoKey { name }) = bag.unseal_any(&text) else {
        return Err("the name is unknown".into());
    };
    assert!(rt; name == unknown);
    let Err(AnyFault::NoKey { name }) = bag.seal_named(&unknown, b"text", &IV) else {
        return Err("the name is unknown".into());
    };
    assert!(rt; name == unknown);
    Ok(())
}

#[test]
fn an_unknown_name_is_no_default(rt: HostRuntime) -> Result<(), Fail> {
    let alloc = rt.alloc();
    let mut bag = named_bag(alloc)?;
    assert!(rt; matches!(bag.seal_default(b"text", &IV), Err(SealFault::NoDefault)));
    assert!(rt; bag.default_name().is_none());
    let unknown = Octets::from_slice(alloc, b"unknown")?;
    let Err(NoKey { name }) = bag.set_default(unknown) else {
        return Err("the name is unknown".into());
    };
    assert_eq!(rt; name.as_slice(), b"unknown".as_slice());
    assert!(rt; matches!(bag.seal_default(b"text", &IV), Err(SealFault::NoDefault)));
    Ok(())
}

#[test]
fn a_blob_that_is_no_base64_is_told(rt: HostRuntime) -> Result<(), Fail> {
    let fault = unseal_fault(rt.alloc(), b"A")?;
    assert_eq!(rt; fault, Some(UnsealFault::NotBase64));
    Ok(())
}

#[test]
fn a_blob_of_a_bad_length_is_told(rt: HostRuntime) -> Result<(), Fail> {
    let fault = unseal_fault(rt.alloc(), b"AAAA")?;
    assert_eq!(rt; fault, Some(UnsealFault::BadLength { len: 3 }));
    Ok(())
}

#[test]
fn a_blob_of_another_key_is_told(rt: HostRuntime) -> Result<(), Fail> {
    let (_, _, _, blob) = SEALED[0];
    let fault = unseal_fault(rt.alloc(), blob)?;
    assert!(rt; matches!(fault, Some(UnsealFault::BadTag { .. })));
    Ok(())
}

#[test]
fn a_blob_of_a_bad_padding_is_told(rt: HostRuntime) -> Result<(), Fail> {
    let alloc = rt.alloc();
    let (parts, _, _, _) = SEALED[0];
    let mut bag = KeyBag::new(alloc);
    bag.add(&super::key_of(&parts))?;
    // The blob of no text, with one bit of its vector turned.
    let blob =
        b"B9/gT6JJS/p33o0U4vizGSDEOjNwf7sv+EPyXJGDTLp3v2HInM7M+9yuFOoDOQJqFfwbpoJpfuHqvZcoI0Y5FA==";
    for name in bag.names()?.as_slice() {
        let text = sealed(alloc, name.as_slice(), blob)?;
        let answer = bag.unseal_any(&text);
        assert!(rt; matches!(&answer, Err(AnyFault::Unseal(UnsealFault::BadPadding))));
    }
    Ok(())
}

#[test]
fn faults_are_printed(rt: HostRuntime) -> Result<(), Fail> {
    let alloc = rt.alloc();
    let name = Octets::new(alloc);
    let no_key = AnyFault::NoKey { name };
    assert_eq!(rt;
        format!(in alloc; "{no_key}")?.as_str(),
        "no key of this name"
    );
    let unseal = AnyFault::Unseal(UnsealFault::BadPadding);
    assert_eq!(rt; format!(in alloc; "{unseal}")?.as_str(), "wrong padding");
    assert_eq!(rt;
        format!(in alloc; "{}", AnyFault::NoMemory)?.as_str(),
        "no memory"
    );
    let name = Octets::new(alloc);
    let no_key = NoKey { name };
    assert_eq!(rt;
        format!(in alloc; "{no_key}")?.as_str(),
        "no key of this name"
    );
    assert_eq!(rt;
        format!(in alloc; "{}", SealFault::NoDefault)?.as_str(),
        "no default key"
    );
    assert_eq!(rt;
        format!(in alloc; "{}", SealFault::NoMemory)?.as_str(),
        "no memory"
    );
    Ok(())
}
