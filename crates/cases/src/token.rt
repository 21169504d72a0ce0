// What the tokeniser makes of texts, good and bad.
use std::process::Abort;
use syntax::Refused;
use tables::Table;
use tokens::{Kind, Token, tokenise};

const EMPTY: Token = Token {
    kind: Kind::Name,
    place: 0,
    len: 0,
};

// The refusal of a text, if any, and the number of tokens that were found.
fn cut(text: &[u8]) -> (Option<Refused>, usize) {
    let mut slots = [EMPTY; 2048];
    let mut tokens = Table::make(&mut slots);
    let refused = tokenise(text, &mut tokens).err().map(Refused::from);
    (refused, tokens.len())
}

fn accepted(rt: &impl Abort, text: &[u8], count: usize) {
    assert_eq!(rt; cut(text), (None, count));
}

// Refused 2 at a place, behind so many tokens.
fn bad(rt: &impl Abort, text: &[u8], place: usize, count: usize) {
    assert_eq!(rt;
        cut(text),
        (
            Some(Refused {
                number: 2,
                place: Some(place),
            }),
            count,
        )
    );
}

#[test]
fn nothing_but_separators(rt: HostRuntime) {
    accepted(&rt, b"", 0);
    accepted(&rt, b" \t\r\n ", 0);
    accepted(&rt, b"--", 0);
    accepted(&rt, b"-- unfinished \x00\xff", 0);
    accepted(&rt, b"-->", 0);
    accepted(&rt, b"--\r1", 0);
    accepted(&rt, b"--\n1", 1);
}

#[test]
fn bytes_outside_the_language(rt: HostRuntime) {
    bad(&rt, b"\x00", 0, 0);
    bad(&rt, b"a \x0b", 2, 1);
    bad(&rt, b"\x0c", 0, 0);
    bad(&rt, b"1 \x80", 2, 1);
    bad(&rt, b"\xff", 0, 0);
    bad(&rt, b"a;b", 1, 1);
    bad(&rt, b"_a", 0, 0);
    bad(&rt, b"a\"", 1, 1);
}

#[test]
fn signs(rt: HostRuntime) {
    accepted(&rt, b"<=>", 1);
    accepted(&rt, b"<=", 1);
    accepted(&rt, b"<>=", 2);
    accepted(&rt, b"<=>>=", 2);
    accepted(&rt, b"<-1", 3);
    accepted(&rt, b"1--2", 1);
    accepted(&rt, b"->-", 2);
    accepted(&rt, b"a.#1...", 4);
    bad(&rt, b".", 0, 0);
    bad(&rt, b"..", 0, 0);
    bad(&rt, b"....", 3, 1);
    bad(&rt, b"..#", 0, 0);
    bad(&rt, b"{1, .. , 2}", 4, 3);
}

#[test]
fn words(rt: HostRuntime) {
    accepted(&rt, b"12ab", 2);
    accepted(&rt, b"mk_", 1);
    accepted(&rt, b"mk_(1, 2)", 6);
    accepted(&rt, b"mk", 1);
    accepted(&rt, b"not in set", 3);
    accepted(&rt, b"notin", 1);
    accepted(&rt, b"elseif else if", 3);
    bad(&rt, b"mk_x", 0, 0);
    bad(&rt, b"1 mk_1", 2, 1);
    accepted(&rt, b"a2345678901234567890123456789012", 1);
    bad(&rt, b"a23456789012345678901234567890123", 0, 0);
    bad(&rt, b"f(a23456789012345678901234567890123)", 2, 2);
}

#[test]
fn lengths(rt: HostRuntime) {
    let longest = [b'('; 2048];
    accepted(&rt, &longest, 2048);
    let longer = [b'('; 2049];
    assert_eq!(rt;
        cut(&longer),
        (
            Some(Refused {
                number: 1,
                place: None,
            }),
            0,
        )
    );
    let digits = [b'9'; 2048];
    accepted(&rt, &digits, 1);
}

#[test]
fn spellings(rt: HostRuntime) {
    assert_eq!(rt; tokens::spelling(tokens::Mark::Iff), b"<=>".as_slice());
    assert_eq!(rt; tokens::spelling(tokens::Mark::Mk), b"mk_".as_slice());
}
