ghost use Rattle.std.specs.Prelude.{◌≡◌, drop};
ghost use Rattle.appendix_a.specs.Names.{listed};
ghost use Rattle.appendix_a.specs.Table.{item_parameters};
ghost use Rattle.appendix_a.specs.Expressions.{first_gives_back};

use glsl_tree::{Decl, Direction, Head, Item, Parameter, Parameters};

/// Whether the parameter at a place of the function that an item declares gives a value back.
pub(crate) fn item_gives_back(item: &Item, place: usize) -> bool
    ensures { result ≡ first_gives_back (drop place (item_parameters item.now)) }
{
    match item {
        Item::Declaration(Decl::Prototype(head)) => head_gives_back(head, place),
        Item::Declaration(_) => false,
        Item::Function { head, .. } => head_gives_back(head, place),
    }
}

/// Whether the parameter at a place of a head gives a value back.
fn head_gives_back(head: &Head, place: usize) -> bool
    ensures { result ≡ first_gives_back (drop place (listed head.now.parameters)) }
{
    match &head.parameters {
        Parameters::Void => false,
        Parameters::Listed(all) => parameter_gives_back(all.as_slice(), place),
    }
}

/// Whether the parameter at a place gives a value back.
fn parameter_gives_back(parameters: &[Parameter], place: usize) -> bool
    ensures { result ≡ first_gives_back (drop place parameters.now) }
{
    match parameters.get(place) {
        Some(parameter) => match parameter.direction {
            Some(Direction::Out) | Some(Direction::InOut) => true,
            Some(Direction::In) | None => false,
        },
        None => false,
    }
}
