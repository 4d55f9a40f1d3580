//! Raw tokens with their places, constants that aren't ints, and joined strings (ISO/IEC 9899:2024, 6.4).
use c_tokens::{
    CKind, CTok, PpKind, PpList, PpTok, TokenError, c_token, convert_tokens, pp_tokens,
};
use model_types::numbers::Basic;
use std::alloc::Global;
use std::test::Fail;

/// Texts and their tokens, each as a letter for its kind, its spelling and its place, then `f` where it begins a line and
/// `s` where space stands before it; or the rule and the place of a fault.
const TEXTS: [(&[u8], &[u8]); 18] = [
    (b"", b""),
    (b"ab\\\nc d", b"N:abc@1.1f N:d@2.3s "),
    (b"a\\\n b", b"N:a@1.1f N:b@2.2s "),
    (b"a\r\n b", b"N:a@1.1f N:b@2.2fs "),
    (b"\r\r\n\r", b"O:\r@1.1f "),
    (b"x/* y\n */z//w\n+", b"N:x@1.1f N:z@2.4s P:+@3.1fs "),
    (
        b"\"a\\\"b\" u8'c' L\"d",
        b"T:\"a\\\"b\"@1.1f C:u8'c'@1.8s N:L@1.14s O:\"@1.15 N:d@1.16 ",
    ),
    (b"\"\\\n\"", b"T:\"\"@1.1f "),
    (b"'a\n'b'", b"O:'@1.1f N:a@1.2 C:'b'@2.1fs "),
    (
        b"#include <a/*b> <c>\n<d>",
        b"P:#@1.1f N:include@1.2 H:<a/*b>@1.10s P:<@1.17s N:c@1.18 P:>@1.19 P:<@2.1fs N:d@2.2 P:>@2.3 ",
    ),
    (
        b"/**/ # /**/ include</>",
        b"P:#@1.6fs N:include@1.13s H:</>@1.20 ",
    ),
    (b"1'000'000", b"D:1'000'000@1.1f "),
    (b"1'_a", b"D:1@1.1f O:'@1.2 N:_a@1.3 "),
    (
        b"0x1e+1 1'e+5 .5 ..",
        b"D:0x1e+1@1.1f D:1'e@1.8s P:+@1.11 D:5@1.12 D:.5@1.14s P:.@1.17s P:.@1.18 ",
    ),
    (
        b"a+++++b <<= ... %: ::",
        b"N:a@1.1f P:++@1.2 P:++@1.4 P:+@1.6 N:b@1.7 P:<<=@1.9s P:...@1.13s P:%@1.17s P::@1.18 P:::@1.20s ",
    ),
    (
        b"??/\n$\0\xff\\",
        b"P:?@1.1f P:?@1.2 P:/@1.3 O:$@2.1fs O:\0@2.2 O:\xff@2.3 ",
    ),
    (b"a /* b", b"L1@1.3#1"),
    (b"\n/*/", b"L1@2.1#0"),
];

fn letter(kind: PpKind) -> u8 {
    match kind {
        PpKind::Header => b'H',
        PpKind::Name => b'N',
        PpKind::Number => b'D',
        PpKind::Character => b'C',
        PpKind::Text => b'T',
        PpKind::Punct => b'P',
        PpKind::Other => b'O',
    }
}

/// Appends a token as the table has it, from a copy of it.
fn show_token(alloc: Global, tok: &PpTok, out: &mut Vec<u8>) -> Result<(), Fail> {
    let tok = tok.copy(alloc)?;
    let place = format!(in alloc; "@{}.{}", tok.place.line, tok.place.column)?;
    out.extend_from_slice(&[letter(tok.kind), b':'])?;
    out.extend_from_slice(tok.spelling())?;
    out.extend_from_slice(place.as_bytes())?;
    if tok.first {
        out.push(b'f')?;
    }
    if tok.space {
        out.push(b's')?;
    }
    out.push(b' ')?;
    Ok(())
}

/// The tokens of a short text.
fn tokens(alloc: Global, text: &[u8]) -> Result<PpList, TokenError> {
    if text.len() > 1000 {
        return Err(TokenError::NoMemory);
    }
    pp_tokens(alloc, text, 0)
}

/// The tokens of a text as the table has them.
fn shown(alloc: Global, text: &[u8]) -> Result<Vec<u8>, Fail> {
    let mut out = Vec::new(alloc);
    match tokens(alloc, text) {
        Ok(list) => {
            for at in 0..list.count() {
                if let Some(tok) = list.get(at) {
                    show_token(alloc, tok, &mut out)?;
                }
            }
        }
        Err(TokenError::Fault(fault)) => {
            let place = fault.place;
            let line = format!(in alloc;
                "L{}@{}.{}#{}",
                fault.rule.number, place.line, place.column, place.order
            )?;
            out.extend_from_slice(line.as_bytes())?;
        }
        Err(TokenError::NoMemory) => return Err(Fail::from("no memory")),
    }
    Ok(out)
}

#[test]
fn tokens_have_places(rt: HostRuntime) -> Result<(), Fail> {
    for (text, want) in TEXTS {
        let found = shown(rt.alloc(), text)?;
        assert_eq!(rt; found.as_slice(), want);
    }
    Ok(())
}

/// Constants that aren't ints, with their types and values (6.4.4.2).
const CONSTANTS: [(&[u8], Basic, i128); 9] = [
    (b"0x80000000", Basic::Unsigned, 2147483648),
    (b"2147483648", Basic::Long, 2147483648),
    (b"4294967296u", Basic::UnsignedLong, 4294967296),
    (b"7lU", Basic::UnsignedLong, 7),
    (b"10LLu", Basic::UnsignedLongLong, 10),
    (b"9223372036854775807", Basic::Long, 9223372036854775807),
    (
        b"0xfFffffffffffffff",
        Basic::UnsignedLong,
        18446744073709551615,
    ),
    (
        b"0x8000000000000000ll",
        Basic::UnsignedLongLong,
        9223372036854775808,
    ),
    (b"'\\377'", Basic::Int, -1),
];

/// The first token of a text as a token of C.
fn first_of(alloc: Global, text: &[u8]) -> Result<CTok, Fail> {
    let list = tokens(alloc, text)?;
    match list.get(0) {
        Some(tok) => Ok(c_token(alloc, tok)?),
        None => Err(Fail::from("no token")),
    }
}

#[test]
fn constants_have_types(rt: HostRuntime) -> Result<(), Fail> {
    for (text, basic, value) in CONSTANTS {
        match first_of(rt.alloc(), text)?.kind {
            CKind::Integer(constant) => {
                assert_eq!(rt; constant.basic, basic);
                assert_eq!(rt; constant.value, value);
            }
            _ => assert!(rt; false, "no integer"),
        }
    }
    Ok(())
}

/// What the strings and names of the text below are, with their columns and orders.
const JOINED: [(&[u8], u32, u32); 3] = [(b"aAB\n17", 1, 0), (b"x", 23, 2), (b"??/", 25, 3)];

#[test]
fn neighbouring_strings_are_joined(rt: HostRuntime) -> Result<(), Fail> {
    let alloc = rt.alloc();
    let list = tokens(alloc, b"\"a\\101\" \"\\x42\\n\\0617\" x \"??/\"")?;
    let joined = convert_tokens(alloc, &list)?;
    assert_eq!(rt; joined.count(), 3);
    for (at, (bytes, column, order)) in JOINED.iter().enumerate() {
        match joined.get(at) {
            Some(tok) => {
                assert_eq!(rt; tok.place.column, *column);
                assert_eq!(rt; tok.place.order, *order);
                match &tok.kind {
                    CKind::Text(text) => assert_eq!(rt; text.as_slice(), *bytes),
                    CKind::Name(name) => assert_eq!(rt; name.as_slice(), *bytes),
                    _ => assert!(rt; false, "no string and no name"),
                }
            }
            None => assert!(rt; false, "no token"),
        }
    }
    Ok(())
}
