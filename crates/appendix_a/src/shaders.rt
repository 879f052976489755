//! Shaders for the tests: some global declarations, and a `main` whose body is a list of letters.

use crate::building::Builder;
use crate::building_statements::full_type;
use glsl_tree::{
    Basic, Decl, Declarator, Direction, Expr, Head, Item, Member, Parameter, Parameters, SizedName,
    Storage, TypeSpecifier, Unit,
};
use glsl_types::{Facts, Sequence};
use sqlite_items::Items;
use std::alloc::Global;
use std::mem::replace;

/// A parameter of type int that has no name.
fn parameter(direction: Option<Direction>) -> Parameter {
    Parameter {
        is_constant: false,
        direction,
        precision: None,
        kind: TypeSpecifier::Basic(Basic::Int),
        name: None,
        size: None,
    }
}

impl Builder {
    /// The size of a global array, or the value of a constant.
    fn four(&mut self) -> Option<Expr> {
        self.step(b'4')?;
        self.tree()
    }

    /// Adds a global declaration.
    fn declare(
        &mut self,
        storage: Option<Storage>,
        kind: TypeSpecifier,
        declarators: Items<Declarator>,
    ) -> Option<()> {
        let item = Item::Declaration(Decl::Variables {
            full_type: full_type(storage, kind),
            declarators,
        });
        self.items.push(item).ok()
    }

    /// An array of four elements.
    fn array(&mut self, storage: Option<Storage>, kind: Basic, name: &[u8]) -> Option<()> {
        let name = self.text(name)?;
        let size = self.four()?;
        let declarators = self.only(Declarator::Array { name, size })?;
        self.declare(storage, TypeSpecifier::Basic(kind), declarators)
    }

    /// A uniform array of four structures.
    fn uniform_of(&mut self, structure: &[u8], name: &[u8]) -> Option<()> {
        let name = self.text(name)?;
        let structure = self.text(structure)?;
        let size = self.four()?;
        let declarators = self.only(Declarator::Array { name, size })?;
        self.declare(
            Some(Storage::Uniform),
            TypeSpecifier::Name(structure),
            declarators,
        )
    }

    fn members(&self, kind: Basic) -> Option<Items<Member>> {
        let name = self.text(b"m")?;
        let mut names = Items::new(self.alloc);
        names.push(SizedName { name, size: None }).ok()?;
        let mut members = Items::new(self.alloc);
        members
            .push(Member {
                precision: None,
                kind: TypeSpecifier::Basic(kind),
                names,
            })
            .ok()?;
        Some(members)
    }

    /// A structure with one member.
    fn structure(&mut self, name: &[u8], kind: Basic) -> Option<()> {
        let members = self.members(kind)?;
        let name = Some(self.text(name)?);
        let none = Items::new(self.alloc);
        self.declare(None, TypeSpecifier::Struct { name, members }, none)
    }

    /// The head of a function whose parameters have no names.
    fn head(&self, name: &[u8], directions: &[Option<Direction>]) -> Option<Head> {
        let name = self.text(name)?;
        let mut parameters = Items::new(self.alloc);
        for direction in directions {
            parameters.push(parameter(*direction)).ok()?;
        }
        Some(Head {
            full_type: full_type(None, TypeSpecifier::Basic(Basic::Int)),
            name,
            parameters: Parameters::Listed(parameters),
        })
    }

    fn prototype(&mut self, name: &[u8], directions: &[Option<Direction>]) -> Option<()> {
        let head = self.head(name, directions)?;
        self.items
            .push(Item::Declaration(Decl::Prototype(head)))
            .ok()
    }

    /// `uniform int u;uniform vec4 w[4];uniform sampler2D s[4];struct T{sampler2D m;};uniform T t[4];`
    fn uniforms(&mut self) -> Option<()> {
        let u = self.text(b"u")?;
        let declarators = self.only(Declarator::Name(u))?;
        let int = TypeSpecifier::Basic(Basic::Int);
        self.declare(Some(Storage::Uniform), int, declarators)?;
        self.array(Some(Storage::Uniform), Basic::Vec4, b"w")?;
        self.array(Some(Storage::Uniform), Basic::Sampler2D, b"s")?;
        self.structure(b"T", Basic::Sampler2D)?;
        self.uniform_of(b"T", b"t")
    }

    /// `struct P{int m;};uniform P q[4];const int c=4;float v[4];`
    fn others(&mut self) -> Option<()> {
        self.structure(b"P", Basic::Int)?;
        self.uniform_of(b"P", b"q")?;
        let name = self.text(b"c")?;
        let value = self.four()?;
        let declarators = self.only(Declarator::Initialized { name, value })?;
        let int = TypeSpecifier::Basic(Basic::Int);
        self.declare(Some(Storage::Const), int, declarators)?;
        self.array(None, Basic::Float, b"v")
    }

    /// `int f(int);int g(out int);int h(inout int);int k(int,inout int);`
    fn prototypes(&mut self) -> Option<()> {
        self.prototype(b"f", &[None])?;
        self.prototype(b"g", &[Some(Direction::Out)])?;
        self.prototype(b"h", &[Some(Direction::InOut)])?;
        self.prototype(b"k", &[None, Some(Direction::InOut)])
    }

    /// Acts on letters; None where something is left open.
    fn steps(&mut self, letters: &[u8]) -> Option<()> {
        for letter in letters {
            self.step(*letter)?;
        }
        if self.parts.is_empty() && self.outer.is_empty() {
            Some(())
        } else {
            None
        }
    }

    /// `int main(){int n;` and the statements of these letters `}`
    fn main(&mut self, letters: &[u8]) -> Option<()> {
        self.local(b"n")?;
        self.steps(letters)?;
        let head = self.head(b"main", &[])?;
        let body = replace(&mut self.block, Items::new(self.alloc));
        self.items.push(Item::Function { head, body }).ok()
    }

    fn build(&mut self, letters: &[u8]) -> Option<()> {
        self.uniforms()?;
        self.others()?;
        self.prototypes()?;
        self.main(letters)
    }

    fn finish(self) -> (Unit, Facts) {
        let facts = Facts {
            places: Sequence::from_vec(self.places),
            exprs: Sequence::from_vec(self.exprs),
        };
        (Unit { items: self.items }, facts)
    }
}

/// The shader of a body, and its facts; None where the letters make no body, or without memory.
pub fn shader(alloc: Global, letters: &[u8]) -> Option<(Unit, Facts)> {
    let mut builder = Builder::new(alloc);
    builder.build(letters)?;
    Some(builder.finish())
}
