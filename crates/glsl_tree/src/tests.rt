use crate::{
    Basic, Class, Expr, FullType, Head, Item, Parameter, Parameters, Stmt, Text, Token,
    TypeSpecifier, Unit, spell,
};
use sqlite_items::{Boxed, Items};
use std::alloc::{AllocError, Global};

fn name(alloc: Global, text: &[u8]) -> Result<Text, AllocError> {
    Text::from_slice(alloc, text)
}

fn float_type() -> TypeSpecifier {
    TypeSpecifier::Basic(Basic::Float)
}

/// `float f(float a){return (a);}`
fn identity(alloc: Global) -> Result<Unit, AllocError> {
    let mut parameters = Items::new(alloc);
    parameters.push(Parameter {
        is_constant: false,
        direction: None,
        precision: None,
        kind: float_type(),
        name: Some(name(alloc, b"a")?),
        size: None,
    })?;
    let head = Head {
        full_type: FullType {
            storage: None,
            precision: None,
            kind: float_type(),
        },
        name: name(alloc, b"f")?,
        parameters: Parameters::Listed(parameters),
    };
    let inner = Boxed::new(alloc, Expr::Name(name(alloc, b"a")?))?;
    let mut body = Items::new(alloc);
    body.push(Stmt::Return(Some(Expr::Bracket(inner))))?;
    let mut items = Items::new(alloc);
    items.push(Item::Function { head, body })?;
    Ok(Unit { items })
}

fn is_mark(token: &Token) -> bool {
    token.class == Class::Punct
}

#[test]
fn a_function_is_spelled_in_order_with_its_brackets(rt: HostRuntime) {
    let alloc = rt.alloc();
    let unit = identity(alloc).expect(&rt, "memory");
    let Ok(tokens) = spell(alloc, &unit) else {
        panic!(rt; "memory");
    };
    let texts: [&[u8]; 13] = [
        b"float", b"f", b"(", b"float", b"a", b")", b"{", b"return", b"(", b"a", b")", b";", b"}",
    ];
    assert!(rt; tokens.len() == texts.len());
    for (token, text) in tokens.iter().zip(texts.iter()) {
        assert!(rt; token.text.as_slice() == *text);
        assert!(rt; token.line == 0);
    }
    assert!(rt; tokens.iter().filter(|token| is_mark(token)).count() == 7);
}
