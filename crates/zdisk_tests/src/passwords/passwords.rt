//! Passwords against what Python's hmac module derives, and bytes that are no password.

use zpasswords::{Password, Secret};
use ztree::SessionId;

// The bytes from 1 to 32.
fn rising() -> [u8; 32] {
    let mut bytes = [0u8; 32];
    for i in 0..32 {
        bytes[i] = i as u8 + 1;
    }
    bytes
}

// The bytes from 255 down to 224.
fn falling() -> [u8; 32] {
    let mut bytes = [0u8; 32];
    for i in 0..32 {
        bytes[i] = 255 - i as u8;
    }
    bytes
}

#[test]
fn sessions_have_passwords(rt: HostRuntime) {
    let expected = [
        (0, 0xc2cce957d808d548792a6ab7940ba659u128),
        (1, 0x4f089c455cf777fe3af0213f7b9a6ac7),
        (7, 0x96b000b6689ef6b4f16fcee2def17d03),
        (258, 0xea0963c7639c4ac6cf9523b34298e70a),
        (u64::MAX, 0x3532e299eec9a32c6e1493b6fed3f357),
    ];
    let secret = Secret::new(rising());
    for (session, bytes) in expected {
        let password = secret.password_of(SessionId::new(session));
        assert_eq!(rt;
            password.as_bytes(),
            bytes.to_be_bytes().as_slice(),
            "of {session}"
        );
    }
}

#[test]
fn secrets_have_passwords(rt: HostRuntime) {
    let secret = Secret::new(falling());
    let expected = 0xa95f8154b3c9931ef6ccb15eb2c57ca2u128.to_be_bytes();
    let password = secret.password_of(SessionId::new(7));
    assert_eq!(rt; password.as_bytes(), expected.as_slice());
}

#[test]
fn nothing_else_is_given(rt: HostRuntime) {
    let bytes = [1, 2, 3, 4, 5, 6, 7, 8, 9, 10, 11, 12, 13, 14, 15, 16];
    let password = Password::new(bytes);
    assert!(rt; password.is_given(&bytes));
    assert!(rt; !password.is_given(&[]));
    assert!(rt; !password.is_given(&bytes[..1]));
    assert!(rt; !password.is_given(&bytes[..15]));
    assert!(rt; !password.is_given(&[1, 2, 3, 4, 5, 6, 7, 8, 9, 10, 11, 12, 13, 14, 15, 16, 0]));
    for place in 0..16 {
        let mut other = bytes;
        other[place] ^= 128;
        assert!(rt; !password.is_given(&other), "at {place}");
    }
    let mut first_alone = [0u8; 16];
    first_alone[0] = 1;
    assert!(rt; !password.is_given(&first_alone));
}
