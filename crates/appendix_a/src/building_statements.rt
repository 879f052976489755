//! Statements for the tests, as lists of letters.

use crate::building::Builder;
use glsl_tree::{
    Basic, Condition, Decl, Declarator, Expr, FullType, Start, Stmt, Storage, TypeSpecifier,
};
use sqlite_items::{Boxed, Items};
use std::mem::replace;

/// A type with its qualifiers.
pub fn full_type(storage: Option<Storage>, kind: TypeSpecifier) -> FullType {
    FullType {
        storage,
        precision: None,
        kind,
    }
}

impl Builder {
    /// Adds a statement to the innermost block.
    pub fn add(&mut self, statement: Stmt) -> Option<()> {
        self.block.push(statement).ok()
    }

    fn open(&mut self) -> Option<()> {
        let outer = replace(&mut self.block, Items::new(self.alloc));
        self.outer.push(outer).ok()
    }

    fn close(&mut self) -> Option<()> {
        let outer = self.outer.pop()?;
        let block = replace(&mut self.block, outer);
        self.add(Stmt::Block(block))
    }

    /// One declarator alone.
    pub fn only(&self, declarator: Declarator) -> Option<Items<Declarator>> {
        let mut all = Items::new(self.alloc);
        all.push(declarator).ok()?;
        Some(all)
    }

    /// `int` and a name.
    pub fn local(&mut self, name: &[u8]) -> Option<()> {
        let name = self.text(name)?;
        let declarators = self.only(Declarator::Name(name))?;
        self.add(Stmt::Declaration(Decl::Variables {
            full_type: full_type(None, TypeSpecifier::Basic(Basic::Int)),
            declarators,
        }))
    }

    /// The last statement of the innermost block.
    fn last(&mut self) -> Option<Boxed<Stmt>> {
        let statement = self.block.pop()?;
        Boxed::new(self.alloc, statement).ok()
    }

    fn repeat_while(&mut self) -> Option<()> {
        let body = self.last()?;
        let condition = Condition::Expression(self.tree()?);
        self.add(Stmt::While { condition, body })
    }

    fn repeat_do(&mut self) -> Option<()> {
        let body = self.last()?;
        let condition = self.tree()?;
        self.add(Stmt::Do { body, condition })
    }

    fn choice(&mut self) -> Option<()> {
        let then = self.last()?;
        let condition = self.tree()?;
        self.add(Stmt::If {
            condition,
            then,
            otherwise: None,
        })
    }

    fn initialized(&mut self, name: &[u8]) -> Option<Items<Declarator>> {
        let name = self.text(name)?;
        let value = self.tree()?;
        self.only(Declarator::Initialized { name, value })
    }

    fn named_twice(&mut self, name: &[u8], other: &[u8]) -> Option<Items<Declarator>> {
        let mut all = self.initialized(name)?;
        let other = self.text(other)?;
        all.push(Declarator::Name(other)).ok()?;
        Some(all)
    }

    /// What a loop declares.
    fn declarators(&mut self, name: &[u8]) -> Option<Items<Declarator>> {
        match self.variant {
            b'Z' => {
                let name = self.text(name)?;
                self.only(Declarator::Name(name))
            }
            b'Y' => self.named_twice(name, b"y"),
            _ => self.initialized(name),
        }
    }

    /// The type of a loop's index.
    fn index_type(&self) -> Basic {
        match self.variant {
            b'B' => Basic::Float,
            b'$' => Basic::Bool,
            b'^' => Basic::IVec2,
            _ => Basic::Int,
        }
    }

    fn declared(&mut self, name: &[u8]) -> Option<Boxed<Start>> {
        let declarators = self.declarators(name)?;
        let full_type = full_type(None, TypeSpecifier::Basic(self.index_type()));
        let start = Start::Declaration(Decl::Variables {
            full_type,
            declarators,
        });
        Boxed::new(self.alloc, start).ok()
    }

    fn start(&mut self, name: &[u8]) -> Option<Boxed<Start>> {
        match self.variant {
            b'#' => Boxed::new(self.alloc, Start::Empty).ok(),
            b'@' => {
                let tree = self.tree()?;
                Boxed::new(self.alloc, Start::Expression(tree)).ok()
            }
            _ => self.declared(name),
        }
    }

    /// `bool z` with its value.
    fn declared_condition(&mut self) -> Option<Boxed<Condition>> {
        let name = self.text(b"z")?;
        let value = self.tree()?;
        let condition = Condition::Declared {
            full_type: full_type(None, TypeSpecifier::Basic(Basic::Bool)),
            name,
            value,
        };
        Boxed::new(self.alloc, condition).ok()
    }

    fn condition(&mut self) -> Option<Boxed<Condition>> {
        if self.variant == b'&' {
            return self.declared_condition();
        }
        let value = self.tree()?;
        Boxed::new(self.alloc, Condition::Expression(value)).ok()
    }

    /// A loop with a condition and a step.
    fn repeat_for(&mut self, name: &[u8]) -> Option<()> {
        let step = self.boxed()?;
        let condition = self.condition()?;
        let start = self.start(name)?;
        let body = self.last()?;
        self.add(Stmt::For {
            start: start.into_inner(),
            condition: Some(condition.into_inner()),
            step: Some(step.into_inner()),
            body,
        })
    }

    /// A loop without a condition.
    fn repeat_unasked(&mut self, name: &[u8]) -> Option<()> {
        let step = self.boxed()?;
        let start = self.start(name)?;
        let body = self.last()?;
        self.add(Stmt::For {
            start: start.into_inner(),
            condition: None,
            step: Some(step.into_inner()),
            body,
        })
    }

    /// A loop without a step.
    fn repeat_unstepped(&mut self, name: &[u8]) -> Option<()> {
        let condition = self.condition()?;
        let start = self.start(name)?;
        let body = self.last()?;
        self.add(Stmt::For {
            start: start.into_inner(),
            condition: Some(condition.into_inner()),
            step: None,
            body,
        })
    }

    fn repeat(&mut self, name: &[u8]) -> Option<()> {
        match self.variant {
            b'C' => self.repeat_unasked(name)?,
            b'U' => self.repeat_unstepped(name)?,
            _ => self.repeat_for(name)?,
        }
        self.variant = b' ';
        Some(())
    }

    fn act(&mut self, letter: u8) -> Option<()> {
        match letter {
            b'E' => self.add(Stmt::Empty),
            b'y' => self.local(b"i"),
            b'{' => self.open(),
            b'}' => self.close(),
            b'W' => self.repeat_while(),
            b'D' => self.repeat_do(),
            b'O' => self.choice(),
            b'R' => self.repeat(b"i"),
            b'N' => self.repeat(b"j"),
            b';' => {
                let tree = self.tree()?;
                self.add(Stmt::Expression(tree))
            }
            b'X' => {
                let tree = self.tree()?;
                self.add(Stmt::Return(Some(tree)))
            }
            _ => self.invoke(letter),
        }
    }

    /// Acts on one letter.
    pub fn step(&mut self, letter: u8) -> Option<()> {
        match letter {
            b'0'..=b'9' => {
                let text = self.text(&[letter])?;
                self.push(Expr::Int(text), true)
            }
            b'.' => {
                let text = self.text(b"1.5")?;
                self.push(Expr::Float(text), true)
            }
            b'B' | b'C' | b'U' | b'Y' | b'Z' | b'@' | b'#' | b'$' | b'&' | b'^' => {
                self.variant = letter;
                Some(())
            }
            _ => self.act(letter),
        }
    }
}
