//! Expressions made of their parts, with their levels and heights (GLSL ES 1.00.17 section 5.1).

ghost use Rattle.std.specs.Prelude.{◌≡◌, ◌<◌, ◌+◌, max, IfOk, Some};
ghost use Rattle.glsl_tree.specs.Token.{plain_tokens};
ghost use Rattle.glsl_parse.specs.Answers.{Finds, IsMeasured};

use crate::errors::Parse;
use crate::symbols::binary_level;
use glsl_tree::{
    AssignmentOperator, BinaryOperator, Expr, PostfixOperator, PrefixOperator, Text, Token,
};
use sqlite_items::Boxed;
use std::alloc::Global;

/// An expression at the front of a list of tokens.
#[derive(Drop)]
pub struct Found<'a> {
    /// The expression.
    pub tree: Expr,
    /// How tightly it binds, from 0 for a comma to 12 for a primary expression.
    pub level: u32,
    /// Its height.
    pub height: u32,
    /// The tokens that follow.
    pub rest: &'a [Token],
}

/// An expression of one node.
pub fn leaf<'a>(tree: Expr, rest: &'a [Token]) -> Found<'a>
    ensures tree { result.tree ≡ tree }
    ensures level { result.level ≡ 12 }
    ensures height { result.height ≡ 1 }
    ensures rest { result.rest.now ≡ rest.now }
{
    Found {
        tree,
        level: 12,
        height: 1,
        rest,
    }
}

/// An expression in brackets.
#[tactic(auto, using(crate::proofs::Measures::measures))]
pub fn bracket<'a>(alloc: Global, inner: Found<'a>, rest: &'a [Token]) -> Result<Found<'a>, Parse>
    requires small { inner.height < 1000 }
    requires measured { IsMeasured inner }
    ensures found { Finds result (Some (Expr.Bracket inner.entry.tree, plain_tokens rest.now)) }
    ensures rest { IfOk result (λ found. found.rest.now ≡ rest.now) }
    ensures measured { IfOk result IsMeasured }
    ensures height { IfOk result (λ found. found.height ≡ inner.entry.height + 1) }
{
    Ok(Found {
        tree: Expr::Bracket(Boxed::new(alloc, inner.tree)?),
        level: 12,
        height: inner.height + 1,
        rest,
    })
}

/// An element of an expression.
#[tactic(auto, using(crate::proofs::Measures::measures))]
pub fn element<'a>(
    alloc: Global,
    base: Found<'a>,
    index: Found<'a>,
    rest: &'a [Token],
) -> Result<Found<'a>, Parse>
    requires small { max base.height index.height < 1000 }
    requires base { IsMeasured base }
    requires index { IsMeasured index }
    ensures found { Finds result (Some (Expr.Index base.entry.tree index.entry.tree, plain_tokens rest.now)) }
    ensures rest { IfOk result (λ found. found.rest.now ≡ rest.now) }
    ensures measured { IfOk result IsMeasured }
    ensures height { IfOk result (λ found. found.height ≡ max base.entry.height index.entry.height + 1) }
{
    let tree = Expr::Index {
        base: Boxed::new(alloc, base.tree)?,
        index: Boxed::new(alloc, index.tree)?,
    };
    Ok(Found {
        tree,
        level: 11,
        height: base.height.max(index.height) + 1,
        rest,
    })
}

/// A field of an expression.
#[tactic(auto, using(crate::proofs::Measures::measures))]
pub fn field<'a>(
    alloc: Global,
    base: Found<'a>,
    name: Text,
    rest: &'a [Token],
) -> Result<Found<'a>, Parse>
    requires small { base.height < 1000 }
    requires measured { IsMeasured base }
    ensures found { Finds result (Some (Expr.Field base.entry.tree name, plain_tokens rest.now)) }
    ensures rest { IfOk result (λ found. found.rest.now ≡ rest.now) }
    ensures measured { IfOk result IsMeasured }
    ensures height { IfOk result (λ found. found.height ≡ base.entry.height + 1) }
{
    let tree = Expr::Field {
        base: Boxed::new(alloc, base.tree)?,
        name,
    };
    Ok(Found {
        tree,
        level: 11,
        height: base.height + 1,
        rest,
    })
}

/// An expression with an operator after it.
#[tactic(auto, using(crate::proofs::Measures::measures))]
pub fn postfix<'a>(
    alloc: Global,
    operand: Found<'a>,
    operator: PostfixOperator,
    rest: &'a [Token],
) -> Result<Found<'a>, Parse>
    requires small { operand.height < 1000 }
    requires measured { IsMeasured operand }
    ensures found { Finds result (Some (Expr.Postfix operand.entry.tree operator, plain_tokens rest.now)) }
    ensures rest { IfOk result (λ found. found.rest.now ≡ rest.now) }
    ensures measured { IfOk result IsMeasured }
    ensures height { IfOk result (λ found. found.height ≡ operand.entry.height + 1) }
{
    let tree = Expr::Postfix {
        operand: Boxed::new(alloc, operand.tree)?,
        operator,
    };
    Ok(Found {
        tree,
        level: 11,
        height: operand.height + 1,
        rest,
    })
}

/// An expression with an operator before it.
#[tactic(auto, using(crate::proofs::Measures::measures))]
pub fn prefix<'a>(
    alloc: Global,
    operator: PrefixOperator,
    operand: Found<'a>,
) -> Result<Found<'a>, Parse>
    requires small { operand.height < 1000 }
    requires measured { IsMeasured operand }
    ensures found { Finds result (Some (Expr.Prefix operator operand.entry.tree, plain_tokens operand.entry.rest.now)) }
    ensures rest { IfOk result (λ found. found.rest.now ≡ operand.entry.rest.now) }
    ensures measured { IfOk result IsMeasured }
    ensures height { IfOk result (λ found. found.height ≡ operand.entry.height + 1) }
{
    let tree = Expr::Prefix {
        operator,
        operand: Boxed::new(alloc, operand.tree)?,
    };
    Ok(Found {
        tree,
        level: 10,
        height: operand.height + 1,
        rest: operand.rest,
    })
}

/// Two expressions with an operator between them.
#[tactic(auto, using(crate::proofs::Measures::measures))]
pub fn binary<'a>(
    alloc: Global,
    operator: BinaryOperator,
    left: Found<'a>,
    right: Found<'a>,
) -> Result<Found<'a>, Parse>
    requires small { max left.height right.height < 1000 }
    requires left { IsMeasured left }
    requires right { IsMeasured right }
    ensures found { Finds result (Some (Expr.Binary operator left.entry.tree right.entry.tree, plain_tokens right.entry.rest.now)) }
    ensures rest { IfOk result (λ found. found.rest.now ≡ right.entry.rest.now) }
    ensures measured { IfOk result IsMeasured }
    ensures height { IfOk result (λ found. found.height ≡ max left.entry.height right.entry.height + 1) }
{
    let tree = Expr::Binary {
        operator,
        left: Boxed::new(alloc, left.tree)?,
        right: Boxed::new(alloc, right.tree)?,
    };
    Ok(Found {
        tree,
        level: binary_level(operator),
        height: left.height.max(right.height) + 1,
        rest: right.rest,
    })
}

/// A condition with the values for both cases.
#[tactic(auto, using(crate::proofs::Measures::measures))]
pub fn conditional<'a>(
    alloc: Global,
    test: Found<'a>,
    middle: Found<'a>,
    last: Found<'a>,
) -> Result<Found<'a>, Parse>
    requires small { max test.height (max middle.height last.height) < 1000 }
    requires test { IsMeasured test }
    requires middle { IsMeasured middle }
    requires last { IsMeasured last }
    ensures found { Finds result (Some (Expr.Conditional test.entry.tree middle.entry.tree last.entry.tree, plain_tokens last.entry.rest.now)) }
    ensures rest { IfOk result (λ found. found.rest.now ≡ last.entry.rest.now) }
    ensures measured { IfOk result IsMeasured }
    ensures height { IfOk result (λ found. found.height ≡ max test.entry.height (max middle.entry.height last.entry.height) + 1) }
{
    let tree = Expr::Conditional {
        condition: Boxed::new(alloc, test.tree)?,
        if_true: Boxed::new(alloc, middle.tree)?,
        if_false: Boxed::new(alloc, last.tree)?,
    };
    Ok(Found {
        tree,
        level: 2,
        height: test.height.max(middle.height.max(last.height)) + 1,
        rest: last.rest,
    })
}

/// An assignment.
#[tactic(auto, using(crate::proofs::Measures::measures))]
pub fn assignment<'a>(
    alloc: Global,
    operator: AssignmentOperator,
    target: Found<'a>,
    value: Found<'a>,
) -> Result<Found<'a>, Parse>
    requires small { max target.height value.height < 1000 }
    requires target { IsMeasured target }
    requires value { IsMeasured value }
    ensures found { Finds result (Some (Expr.Assign operator target.entry.tree value.entry.tree, plain_tokens value.entry.rest.now)) }
    ensures rest { IfOk result (λ found. found.rest.now ≡ value.entry.rest.now) }
    ensures measured { IfOk result IsMeasured }
    ensures height { IfOk result (λ found. found.height ≡ max target.entry.height value.entry.height + 1) }
{
    let tree = Expr::Assign {
        operator,
        target: Boxed::new(alloc, target.tree)?,
        value: Boxed::new(alloc, value.tree)?,
    };
    Ok(Found {
        tree,
        level: 1,
        height: target.height.max(value.height) + 1,
        rest: value.rest,
    })
}
