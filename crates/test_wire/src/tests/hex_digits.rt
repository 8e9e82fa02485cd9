//! Digits beside the table of RFC 4648, section 8, in both cases. Errors are those of `hex`.

use hex::FromHexError;
use hex_digits::{Digits, write_digits};

const TABLES: [&[u8; 16]; 2] = [b"0123456789ABCDEF", b"0123456789abcdef"];

// Every byte as the first and as the second digit. Of what is no digit, the first is reported.
#[test]
fn values(rt: HostRuntime) {
    let mut wanted = [None; 256];
    for table in TABLES {
        for value in 0..16 {
            wanted[usize::from(table[value])] = Some(value as u8);
        }
    }
    let digits = Digits::new();
    for c in 0..=u8::MAX {
        let mut out = [0; 2];
        let result = digits.decode([c, b'0', b'0', c].as_slice(), &mut out);
        match wanted[usize::from(c)] {
            Some(value) => assert_eq!(rt; (result, out[0] / 16, out[1]), (Ok(()), value, value)),
            None => {
                assert_eq!(rt; result, Err(rejected(c, 0)));
                let result = digits.decode([b'0', c, b'0', c].as_slice(), &mut out);
                assert_eq!(rt; result, Err(rejected(c, 1)));
            }
        }
    }
}

fn rejected(c: u8, index: usize) -> FromHexError {
    FromHexError::InvalidHexCharacter {
        c: char::from(c),
        index,
    }
}

// Texts of 0 to 24 bytes. The loops handle several bytes at a time, and then the rest.
#[test]
fn texts(rt: HostRuntime) {
    let bytes = b"foobar\x00\x01\x23\x45\x67\x89\xab\xcd\xef\xff\xf0\x0f\x9a\xa9\x19\x91\x80\x08";
    let text = b"666f6f626172000123456789abcdeffff00f9aa919918008";
    let digits = Digits::new();
    for len in 0..=24 {
        let mut written = [0; 48];
        write_digits(&bytes[..len], &mut written[..2 * len]);
        assert_eq!(rt; &written[..2 * len], &text[..2 * len]);
        let mut out = [0; 24];
        assert_eq!(rt; digits.decode(&text[..2 * len], &mut out[..len]), Ok(()));
        assert_eq!(rt; &out[..len], &bytes[..len]);
    }
    let mut out = [0; 6];
    assert_eq!(rt; digits.decode(b"666F6F626172", &mut out), Ok(()));
    assert_eq!(rt; &out, b"foobar");
}
