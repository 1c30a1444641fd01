//! Tokens of texts, worked out by hand.
use crate::{Kind, LexFault, next_token};
use fb_base::Span;
use std::test::Fail;

#[test]
fn tokens(rt: HostRuntime) -> Result<(), Fail> {
    let text = "f(\u{3b1}') (_ :=# |\r\n->".as_bytes();
    let wanted = [
        (Kind::Name, 0, 1),
        (Kind::Touching, 1, 2),
        (Kind::Name, 2, 5),
        (Kind::RParen, 5, 6),
        (Kind::LParen, 7, 8),
        (Kind::Hole, 8, 9),
        (Kind::Assign, 10, 12),
        (Kind::Newline, 16, 17),
        (Kind::Arrow, 17, 19),
        (Kind::End, 19, 19),
    ];
    let mut prev = None;
    for (kind, start, end) in wanted {
        let token = match next_token(text, prev) {
            Ok(token) => token,
            Err(_) => break,
        };
        assert_eq!(rt; token.kind, kind);
        assert_eq!(rt; token.span, Span { start, end });
        prev = Some(token);
    }
    assert!(rt; prev.is_some_and(|token| token.kind == Kind::End));
    Ok(())
}

#[test]
fn faults(rt: HostRuntime) -> Result<(), Fail> {
    assert_eq!(rt; next_token(b" \t- >", None), Err(LexFault::BadByte(2)));
    assert_eq!(rt; next_token(b"# a\xff", None), Err(LexFault::BadByte(3)));
    assert_eq!(rt; next_token(b"\r ", None), Err(LexFault::BadByte(0)));
    assert_eq!(rt; next_token(&[b'y'; 256], None), Err(LexFault::LongName(0)));
    assert!(rt; next_token(&[b'y'; 255], None).is_ok());
    Ok(())
}
