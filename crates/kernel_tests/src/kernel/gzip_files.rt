//! Gzip files, made by zlib 1.2.13.

use bus_kernel::gzip::{Unpacking, unzip};

// A file that holds its block as it is, ones with fixed codes, and one with codes of its own.
const STORED: &[u8] =
    b"\x1f\x8b\x08\0\0\0\0\0\x02\x03\x01\x03\0\xfc\xff\x61\x62\x63\xc2\x41\x24\x35\x03\0\0\0";

const FIXED: &[u8] =
    b"\x1f\x8b\x08\0\0\0\0\0\x02\x03\x4b\x4c\x4a\x84\x42\0\x9b\x7e\x9b\x98\x0a\0\0\0";

const NAMED: &[u8] =
    b"\x1f\x8b\x08\x08\0\0\0\0\x02\x03Image\0\x4b\x4c\x4a\x84\x42\0\x9b\x7e\x9b\x98\x0a\0\0\0";

const OWN: &[u8] =
    b"\x1f\x8b\x08\0\0\0\0\0\x02\x03\x3d\x8e\x89\x11\0\x31\x08\x02\x6b\x05\xfa\xef\xe1\x58\xbc\x49\x46\x41\xf1\x8b\x24\xb9\xaf\x58\x2e\x68\x1e\x52\xd0\x44\xb3\x88\x5a\xc6\xa5\xbf\x9f\xa0\x4a\x7c\xc3\x66\xb4\x1e\x2a\xde\x86\x2c\xdb\x26\x24\xc4\xf8\x6e\xac\xf7\x0e\x3e\xca\xfb\x10\xa4\x0f\x37\x25\x4a\xd8\xa0\0\0\0";

const OWN_TEXT: &[u8] =
    b"aaaabbbbaababbabaaabaaacababacabbcabaabaabcaaaabcbcaaabcbababbabcbabcaacbbbabaabaacaaaccabcbbbacabcaccababbcacbbbbbaccbbaaacaacaaaaabaaaaaabaaaaacaaabbbbaaabbba";

const HELD: &[(&[u8], &[u8])] = &[
    (STORED, b"abc"),
    (FIXED, b"ababababab"),
    (NAMED, b"ababababab"),
    (OWN, OWN_TEXT),
];

const REFUSED: &[(&[u8], Unpacking)] = &[
    (b"", Unpacking::Malformed),
    (b"\x1f\x8b\x08", Unpacking::Malformed),
    (b"\x1f\x8b\x08\0\0\0", Unpacking::Cut),
    (b"\x1f\x8b\x07\0\0\0\0\0\x02\x03", Unpacking::Malformed),
    (b"\x1f\x8b\x08\0\0\0\0\0\x02\x03\x4b\x4c", Unpacking::Cut),
    (b"\x1f\x8b\x08\0\0\0\0\0\x02\x03\x07", Unpacking::Malformed),
    // the check sum is another one, and then the length
    (
        b"\x1f\x8b\x08\0\0\0\0\0\x02\x03\x4b\x4c\x4a\x84\x42\0\x9b\x7e\x9b\x99\x0a\0\0\0",
        Unpacking::Malformed,
    ),
    (
        b"\x1f\x8b\x08\0\0\0\0\0\x02\x03\x4b\x4c\x4a\x84\x42\0\x9b\x7e\x9b\x98\x0b\0\0\0",
        Unpacking::Malformed,
    ),
];

#[test]
fn held(rt: HostRuntime) {
    for (packed, text) in HELD {
        let held = unzip(rt.alloc(), *packed, 160).expect(&rt, "bytes");
        assert!(rt; held.as_slice() == *text);
    }
}

#[test]
fn refused(rt: HostRuntime) {
    for (packed, why) in REFUSED {
        let refused = unzip(rt.alloc(), *packed, 160).map(|_| ());
        assert_eq!(rt; refused, Err(*why));
    }
    let refused = unzip(rt.alloc(), OWN, 159).map(|_| ());
    assert_eq!(rt; refused, Err(Unpacking::TooLong));
}
