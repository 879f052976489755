//! Expressions for the tests, with their facts: each is written as a list of letters, parts before the whole, so that trees and
//! facts are built in one pass.

use glsl_tree::{
    AssignmentOperator, Basic, BinaryOperator, Callee, Expr, Item, PostfixOperator, PrefixOperator,
    Stmt, Text,
};
use glsl_types::{Const, Known, Sequence};
use sqlite_items::{Boxed, Items};
use std::alloc::Global;

/// An expression, and whether it is constant.
#[derive(Drop)]
pub struct Part {
    /// The expression.
    pub tree: Boxed<Expr>,
    /// Whether it is constant.
    pub constant: bool,
}

/// What is built so far. Each of the functions returns None where a letter finds nothing to act on, or without memory.
/// None of them has a tree of its own left where it returns None, but in a box or in a list: to prove that a whole tree can
/// be dropped there takes minutes.
#[derive(Drop)]
pub struct Builder {
    /// Where it takes memory.
    pub alloc: Global,
    /// The expressions that belong to nothing yet.
    pub parts: Vec<Part>,
    /// The statements of the innermost block.
    pub block: Items<Stmt>,
    /// The statements of the blocks around it, the outermost first.
    pub outer: Vec<Items<Stmt>>,
    /// The declarations and functions.
    pub items: Items<Item>,
    /// The numbers of the names in expressions.
    pub places: Vec<u32>,
    /// What is known of expressions.
    pub exprs: Vec<Known>,
    /// How the next loop differs from `for(int i=..;..;..)`, by its letter.
    pub variant: u8,
}

impl Builder {
    /// Nothing.
    pub fn new(alloc: Global) -> Builder {
        Builder {
            alloc,
            parts: Vec::new(alloc),
            block: Items::new(alloc),
            outer: Vec::new(alloc),
            items: Items::new(alloc),
            places: Vec::new(alloc),
            exprs: Vec::new(alloc),
            variant: b' ',
        }
    }

    /// A name.
    pub fn text(&self, bytes: &[u8]) -> Option<Text> {
        Text::from_slice(self.alloc, bytes).ok()
    }

    /// Takes the last expression in its box.
    pub fn boxed(&mut self) -> Option<Boxed<Expr>> {
        Some(self.parts.pop()?.tree)
    }

    /// Takes the last expression.
    pub fn tree(&mut self) -> Option<Expr> {
        Some(self.parts.pop()?.tree.into_inner())
    }

    fn known(&self, constant: bool) -> Option<Known> {
        let mut components = Vec::new(self.alloc);
        if constant {
            components.push(Const::Float).ok()?;
        }
        Some(Known {
            kind: None,
            constant: Sequence::from_vec(components),
        })
    }

    /// Adds an expression and its fact.
    pub fn push(&mut self, tree: Expr, constant: bool) -> Option<()> {
        let tree = Boxed::new(self.alloc, tree).ok()?;
        let known = self.known(constant)?;
        self.exprs.push(known).ok()?;
        self.parts.push(Part { tree, constant }).ok()
    }

    fn name(&mut self, text: &[u8], number: u32, constant: bool) -> Option<()> {
        let text = self.text(text)?;
        self.places.push(number).ok()?;
        self.push(Expr::Name(text), constant)
    }

    /// The names of the global declarations, of `main`'s local `n` and of the loops' indices: `x` is a second `i`.
    fn named(&mut self, letter: u8) -> Option<()> {
        match letter {
            b'u' => self.name(b"u", 1, false),
            b'w' => self.name(b"w", 2, false),
            b's' => self.name(b"s", 3, false),
            b't' => self.name(b"t", 5, false),
            b'q' => self.name(b"q", 7, false),
            b'c' => self.name(b"c", 8, true),
            b'v' => self.name(b"v", 9, false),
            b'n' => self.name(b"n", 15, false),
            b'i' => self.name(b"i", 16, false),
            b'j' => self.name(b"j", 17, false),
            b'x' => self.name(b"i", 17, false),
            _ => None,
        }
    }

    fn binary(&mut self, operator: BinaryOperator) -> Option<()> {
        let right = self.parts.pop()?;
        let left = self.parts.pop()?;
        let constant = left.constant && right.constant;
        let tree = Expr::Binary {
            operator,
            left: left.tree,
            right: right.tree,
        };
        self.push(tree, constant)
    }

    fn assign(&mut self, operator: AssignmentOperator) -> Option<()> {
        let value = self.boxed()?;
        let target = self.boxed()?;
        let tree = Expr::Assign {
            operator,
            target,
            value,
        };
        self.push(tree, false)
    }

    fn postfix(&mut self, operator: PostfixOperator) -> Option<()> {
        let operand = self.boxed()?;
        self.push(Expr::Postfix { operand, operator }, false)
    }

    fn prefix(&mut self, operator: PrefixOperator, keeps: bool) -> Option<()> {
        let operand = self.parts.pop()?;
        let constant = operand.constant && keeps;
        let tree = Expr::Prefix {
            operator,
            operand: operand.tree,
        };
        self.push(tree, constant)
    }

    fn bracket(&mut self) -> Option<()> {
        let inner = self.parts.pop()?;
        let constant = inner.constant;
        self.push(Expr::Bracket(inner.tree), constant)
    }

    fn index(&mut self) -> Option<()> {
        let index = self.boxed()?;
        let base = self.boxed()?;
        self.push(Expr::Index { base, index }, false)
    }

    fn field(&mut self) -> Option<()> {
        let base = self.boxed()?;
        let name = self.text(b"m")?;
        self.push(Expr::Field { base, name }, false)
    }

    fn conditional(&mut self) -> Option<()> {
        let if_false = self.boxed()?;
        let if_true = self.boxed()?;
        let condition = self.boxed()?;
        let tree = Expr::Conditional {
            condition,
            if_true,
            if_false,
        };
        self.push(tree, false)
    }

    /// A call of a basic type with one argument.
    fn convert(&mut self, keeps: bool) -> Option<()> {
        let argument = self.parts.pop()?;
        let constant = argument.constant && keeps;
        let mut arguments = Items::new(self.alloc);
        arguments.push(argument.tree.into_inner()).ok()?;
        let callee = Callee::Basic(Basic::Int);
        self.push(Expr::Call { callee, arguments }, constant)
    }

    /// A call of the function or structure of this number, 0 of a built-in function, with one argument.
    fn call(&mut self, name: &[u8], number: u32) -> Option<()> {
        let argument = self.parts.pop()?;
        let mut arguments = Items::new(self.alloc);
        arguments.push(argument.tree.into_inner()).ok()?;
        self.called(name, number, arguments)
    }

    fn call_two(&mut self, name: &[u8], number: u32) -> Option<()> {
        let second = self.parts.pop()?;
        let first = self.parts.pop()?;
        let mut arguments = Items::new(self.alloc);
        arguments.push(first.tree.into_inner()).ok()?;
        arguments.push(second.tree.into_inner()).ok()?;
        self.called(name, number, arguments)
    }

    fn called(&mut self, name: &[u8], number: u32, arguments: Items<Expr>) -> Option<()> {
        let callee = Callee::Name(self.text(name)?);
        self.places.push(number).ok()?;
        self.push(Expr::Call { callee, arguments }, false)
    }

    fn call_void(&mut self, name: &[u8], number: u32) -> Option<()> {
        let callee = Callee::Name(self.text(name)?);
        self.places.push(number).ok()?;
        self.push(Expr::CallVoid { callee }, false)
    }

    fn operate(&mut self, letter: u8) -> Option<()> {
        match letter {
            b'+' => self.binary(BinaryOperator::Add),
            b'-' => self.binary(BinaryOperator::Subtract),
            b'<' => self.binary(BinaryOperator::Less),
            b'>' => self.binary(BinaryOperator::Greater),
            b'l' => self.binary(BinaryOperator::LessEqual),
            b'g' => self.binary(BinaryOperator::GreaterEqual),
            b'=' => self.binary(BinaryOperator::Equal),
            b'!' => self.binary(BinaryOperator::NotEqual),
            b',' => self.binary(BinaryOperator::Comma),
            b'A' => self.assign(AssignmentOperator::Assign),
            b'P' => self.assign(AssignmentOperator::Add),
            b'M' => self.assign(AssignmentOperator::Subtract),
            b'T' => self.assign(AssignmentOperator::Multiply),
            _ => self.named(letter),
        }
    }

    fn change(&mut self, letter: u8) -> Option<()> {
        match letter {
            b'a' => self.postfix(PostfixOperator::Increment),
            b'b' => self.postfix(PostfixOperator::Decrement),
            b'd' => self.prefix(PrefixOperator::Increment, false),
            b'e' => self.prefix(PrefixOperator::Decrement, false),
            b'm' => self.prefix(PrefixOperator::Minus, true),
            b'(' => self.bracket(),
            b'[' => self.index(),
            b'_' => self.field(),
            b'?' => self.conditional(),
            _ => self.operate(letter),
        }
    }

    /// Acts on the letter of an expression.
    pub fn invoke(&mut self, letter: u8) -> Option<()> {
        match letter {
            b'I' => self.convert(true),
            b'J' => self.convert(false),
            b'F' => self.call(b"f", 10),
            b'G' => self.call(b"g", 11),
            b'H' => self.call(b"h", 12),
            b'K' => self.call_two(b"k", 13),
            b'Q' => self.call(b"P", 6),
            b'S' => self.call(b"abs", 0),
            b'L' => self.call(b"texture2D", 0),
            b'V' => self.call_void(b"f", 10),
            _ => self.change(letter),
        }
    }
}
