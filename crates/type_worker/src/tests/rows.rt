// A key and its name, as an independent model has them. The texts were sealed under it by another program, with the
// first vector of the zero seed's stream 0.
use key_derivation::NigoriKey;

const PARTS: [u128; 3] = [
    0x30ad91052046ec068592c217b207e262,
    0x6e964bae613e0d69efb727e90009b10e,
    0x87088342d6dd05bbe008c5d7dc0114e2,
];

pub(super) const NAME: &[u8] =
    b"UNsoFwBePrv+qkxe9sWxHwAElxogOaR9hFnG+1cZpF3bTdb8hIKo2mBJkojBQe5pYz5xiXn+9eMQ+AM86T/JWA==";

pub(super) const OTHER_NAME: &[u8] =
    b"exlCsZX0n8jw/Rj+oKDIunFAHN0WXIHz4YOWIXBRCBmKEWHhhSikdMCqhE5/gIlINyyDZZ8TWWl/K0jWu0ectg==";

// The preference `a` with the value `1`, as its plain specifics.
pub(super) const PREFERENCE: &[u8] =
    b"drjgraDxPZBAXWrlU4a9KJI9ujLrxZGarNkULng7vWDrN5Vo/2/mAhDjsrWqPNi079vsbc2ypk6kp+e+k2pbfw==";

// Empty specifics of a preference.
pub(super) const NO_PREFERENCE: &[u8] =
    b"drjgraDxPZBAXWrlU4a9KDQouCzxG7qCX9EnYxcP5wk+Axvml0hJMm4LnPHqH0ZzlJZsNjSmjNn6/JZkaC1etQ==";

// The login `ann` at `o` of the realm `r`, with the elements `ue` and `pe`, the secret `s3`, made at 5.
pub(super) const LOGIN: &[u8] =
    b"drjgraDxPZBAXWrlU4a9KMzBODhQdv82Vh3pzQsArRVvr90H78AILTSAZwwr92oJolHhjkpglzEBoKWajQlu5F1MCjZDLPWjAz4MrJG/LBY=";

// The key with its name, as a message of keys.
pub(super) const KEYS: &[u8] =
    b"drjgraDxPZBAXWrlU4a9KNnmMBbkaVoQoYtRNxVgotYMFTW0Rj5qXaNSfHmBiWG8N6asfqWSiJzccJ134CDmlLltPNTgMrGH5kCt35zTcibWyG/+3ZoqaAkm6oEV1jjWe4to4UavedTipXhwanUtSx0rgfhIJ1x9p9ZgLrm2dZ2+i44iF5mYajlZksVo7IqZM4IJoa7e0nilvOEDzdLA8o2cKrL+e8dn1DRUPicR5b/n/dD/GJIIg13nr9N4MAQsBx799hX2v+33lYCkPP/BRQ==";

// The vectors of the zero seed's stream 0 are the key stream of the zero key (RFC 8439, A.1, test vector 1).
pub(super) const FIRST: u128 = 0x76b8e0ada0f13d90405d6ae55386bd28;

pub(super) const SECOND: u128 = 0xbdd219b8a08ded1aa836efcc8b770dc7;

pub(super) fn key() -> NigoriKey {
    NigoriKey {
        user: PARTS[0].to_be_bytes(),
        enc: PARTS[1].to_be_bytes(),
        mac: PARTS[2].to_be_bytes(),
    }
}
