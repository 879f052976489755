ghost use Rattle.std.specs.Prelude.{◌≤◌, length};

use super::*;
use glsl_tree::{Class, LONGEST_NAME, Token};
use std::alloc::{AllocError, Global};
use std::test::Fail;

/// Each source, and its tokens: a letter for the class, the line, and the text; or `!` and the line that fails.
const CASES: [(&[u8], &[u8]); 89] = [
    (b"", b""),
    (b"a", b"i1a"),
    (b"a b", b"i1a i1b"),
    (b"a/* c */b", b"i1a i1b"),
    (b"a/**/b", b"i1a i1b"),
    (b"a//b", b"i1a"),
    (b"a// c\nb", b"i1a n1 i2b"),
    (b"a /* x\n y\r\n z */ b", b"i1a i3b"),
    (b"a/*/b*/c", b"i1a i1c"),
    (b"/***/a", b"i1a"),
    (b"/* * / */a", b"i1a"),
    (b"a /* b", b"!1"),
    (b"a\n/* b", b"!2"),
    (b"a\n/* b\n\n", b"!2"),
    (b"/*/", b"!1"),
    (b"// /* x", b""),
    (b"/* // */a", b"i1a"),
    (b"\n", b"n1"),
    (b"\r", b"n1"),
    (b"\r\n", b"n1"),
    (b"\n\r", b"n1"),
    (b"\n\n", b"n1 n2"),
    (b"\r\r", b"n1 n2"),
    (b"\n\r\n", b"n1 n2"),
    (b"\r\n\r", b"n1 n2"),
    (b"\r\n\n", b"n1 n2"),
    (b"a\r\nb\n\rc\nd\re", b"i1a n1 i2b n2 i3c n3 i4d n4 i5e"),
    (b"//x\n\ra", b"n1 i2a"),
    (b"\t\x0b\x0c a", b"i1a"),
    (b"uniform vec4 u_c;", b"k1uniform k1vec4 i1u_c p1;"),
    (b"uniforms Vec4 _", b"i1uniforms i1Vec4 i1_"),
    (b"goto sizeof samplerCube", b"k1goto k1sizeof k1samplerCube"),
    (b"gl_Position a1b2", b"i1gl_Position i1a1b2"),
    (b"0 7 10 017 0x1F 0Xab", b"d10 d17 d110 d1017 d10x1F d10Xab"),
    (b"08", b"d10 d18"),
    (b"0189", b"d101 d189"),
    (b"0x", b"d10 i1x"),
    (b"0xg", b"d10 i1xg"),
    (b"0x1.5", b"d10x1 f1.5"),
    (b"1.0f", b"f11.0 i1f"),
    (
        b"1. .5 1.5 1e3 1E+3 1.e-3 .5e1",
        b"f11. f1.5 f11.5 f11e3 f11E+3 f11.e-3 f1.5e1",
    ),
    (b"1e 1e+ 1.e", b"d11 i1e d11 i1e p1+ f11. i1e"),
    (b"08.5 08e1 0.0 00", b"f108.5 f108e1 f10.0 d100"),
    (b"1..2", b"f11. f1.2"),
    (b"a.x .", b"i1a p1. i1x p1."),
    (b"1.x", b"f11. i1x"),
    (b"123abc", b"d1123 i1abc"),
    (
        b"2147483647 0x7FFFFFFF 017777777777",
        b"d12147483647 d10x7FFFFFFF d1017777777777",
    ),
    (b"2147483648", b"!1"),
    (b"0x80000000", b"!1"),
    (b"020000000000", b"!1"),
    (b"99999999999999999999999999", b"!1"),
    (
        b"99999999999999999999999999.0",
        b"f199999999999999999999999999.0",
    ),
    (b"\n2147483648", b"!2"),
    (
        b"0000000000000000000000000001",
        b"d10000000000000000000000000001",
    ),
    (
        b"+ - * / % < > [ ] ( ) { } ^ | & ~ = ! : ; , ? .",
        b"p1+ p1- p1* p1/ p1% p1< p1> p1[ p1] p1( p1) p1{ p1} p1^ p1| p1& p1~ p1= p1! p1: p1; p1, p1? p1.",
    ),
    (
        b"++ -- << >> && || ^^",
        b"p1++ p1-- p1<< p1>> p1&& p1|| p1^^",
    ),
    (
        b"+= -= *= /= %= <= >= == != &= |= ^= <<= >>=",
        b"p1+= p1-= p1*= p1/= p1%= p1<= p1>= p1== p1!= p1&= p1|= p1^= p1<<= p1>>=",
    ),
    (b"a+++++b", b"i1a p1++ p1++ p1+ i1b"),
    (b"a---b", b"i1a p1-- p1- i1b"),
    (b"<<<=>>>=", b"p1<< p1<= p1>> p1>="),
    (b"&&&|||^^^", b"p1&& p1& p1|| p1| p1^^ p1^"),
    (b"~=", b"p1~ p1="),
    (b"=== !==", b"p1== p1= p1!= p1="),
    (b"**//*", b"p1* p1*"),
    (b"*/", b"p1* p1/"),
    (b"a/ /b", b"i1a p1/ p1/ i1b"),
    (b"/=/**/=", b"p1/= p1="),
    (b"#", b"h1#"),
    (b"##", b"h1# h1#"),
    (b"#define f(x) x", b"h1# i1define i1f (1( i1x p1) i1x"),
    (b"#define f (x)", b"h1# i1define i1f p1( i1x p1)"),
    (b"#define f/**/(x)", b"h1# i1define i1f p1( i1x p1)"),
    (b"#define f\n(x)", b"h1# i1define i1f n1 p2( i2x p2)"),
    (b"# /* */ define if(", b"h1# i1define k1if (1("),
    (b"a # define f(", b"i1a h1# i1define i1f (1("),
    (b"#define 1(", b"h1# i1define d11 p1("),
    (b"#define (", b"h1# i1define p1("),
    (b"#define f((", b"h1# i1define i1f (1( p1("),
    (b"define f(", b"i1define i1f p1("),
    (b"#undef f(", b"h1# i1undef i1f p1("),
    (b"#define f g(", b"h1# i1define i1f i1g p1("),
    (b"#\ndefine f(", b"h1# n1 i2define i2f p2("),
    (b"a $ b", b"!1"),
    (b"a @", b"!1"),
    (b"a\n\n\\", b"!3"),
    (b"\"x\"", b"!1"),
    (b"/* $ */ a // @", b"i1a"),
    (b"\x80", b"!1"),
];

/// Each source that has only characters of the language outside comments, and some that have not.
const CHARACTERS: [(&[u8], bool); 16] = [
    (b"", true),
    (b"a$", false),
    (b"//$", true),
    (b"/*$*/", true),
    (b"/*$", true),
    (b"/*$*/$", false),
    (b"//$\n$", false),
    (b"//$\r@", false),
    (b"/$/", false),
    (b"\\", false),
    (b"'", false),
    (b"\"", false),
    (b"\x00", false),
    (b"\xff", false),
    (
        b"#define F(x) x ? [1.0] : {2e3}; ~!^|&=<>%+-*/,_\t\x0b\x0c\r\n",
        true,
    ),
    (b"`", false),
];

fn letter(class: Class) -> u8 {
    match class {
        Class::Identifier => b'i',
        Class::Keyword => b'k',
        Class::Int => b'd',
        Class::Float => b'f',
        Class::Punct => b'p',
        Class::Hash => b'h',
        Class::NewLine => b'n',
        Class::Params => b'(',
    }
}

fn push_token(out: &mut Vec<u8>, token: &Token) -> Result<(), AllocError> {
    if !out.is_empty() {
        out.push(b' ')?;
    }
    out.push(letter(token.class))?;
    out.push(b'0' + (token.line % 10) as u8)?;
    if !matches!(token.class, Class::NewLine) {
        out.extend_from_slice(token.text.as_slice())?;
    }
    Ok(())
}

/// What a source is read as, in the words of the table.
fn shown(alloc: Global, source: &[u8]) -> Result<Vec<u8>, AllocError>
    requires { length source.now ≤ 262144 }
{
    let mut out = Vec::new(alloc);
    match lex(alloc, source) {
        Ok(tokens) => {
            for token in tokens.as_slice() {
                push_token(&mut out, token)?;
            }
        }
        Err(Lex::Lexical(line)) => {
            out.push(b'!')?;
            out.push(b'0' + (line % 10) as u8)?;
        }
        Err(Lex::Memory) => out.push(b'M')?,
    }
    Ok(out)
}

#[test]
fn reads_tokens_by_longest_match(rt: HostRuntime) -> Result<(), Fail> {
    for (source, expected) in CASES.iter() {
        let source: &[u8] = source;
        if source.len() <= 262_144 {
            let out = shown(rt.alloc(), source)?;
            assert_eq!(rt; out.as_slice(), *expected, "of {source:?}");
        }
    }
    for (source, expected) in CHARACTERS.iter() {
        assert_eq!(rt; check_charset(source), *expected, "of {source:?}");
    }
    let mut name = vec![in rt.alloc(); b'n'; LONGEST_NAME]?;
    let tokens = lex(rt.alloc(), name.as_slice());
    assert!(rt; tokens.is_ok());
    name.push(b'n')?;
    assert!(rt; matches!(lex(rt.alloc(), name.as_slice()), Err(Lex::Lexical(1))));
    Ok(())
}
