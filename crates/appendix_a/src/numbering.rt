ghost use Rattle.std.specs.Prelude.{◌≡◌, ◌+◌, ◌≤◌, ◌++◌, ◌∷◌, [], map, length, take};
ghost use Rattle.glsl_tree.specs.Types.{joined};
ghost use Rattle.glsl_tree.specs.Statements.{item_tokens};
ghost use Rattle.appendix_a.specs.Names as spec;
ghost use Rattle.appendix_a.specs.Names.{item_sampler, names_from, Function};
ghost use Rattle.appendix_a.specs.Numbered.{names_in};
ghost use Rattle.appendix_a.specs.Structures.{samplers_from, structures_after};
ghost use Rattle.appendix_a.specs.Table.{item_parameters, of_entry};

use crate::declared_names::{declaration_names, head_names};
use crate::statement_names::each_statement;
use crate::structures::{Before, item_has_sampler};
use crate::table::Table;
use glsl_tree::Item;

/// The number of declarations and functions of a shader: it has at most 131,072 tokens.
const MOST_ITEMS: usize = 131_072;

/// Adds the names that a declaration or a function declares: its type has a sampler or not, and this is the entry of its
/// function.
#[tactic(auto, using(crate::proofs::Lengths::of_lengths))]
fn item_names(table: &mut Table<'_>, item: &Item, sampler: bool, entry: u32)
    requires room { table.old.next + length (item_tokens item.now) ≤ 131073 }
    requires function { of_entry table.old.items.now entry ≡ Some (Function (item_parameters item.now)) }
    ensures names { names_in table.new ≡ names_in table.old ++ spec.item_names sampler item.now }
    ensures next { table.new.next ≤ table.old.next + length (item_tokens item.now) }
    ensures items { table.new.items.now ≡ table.old.items.now }
    ensures some { 1 ≤ length (item_tokens item.now) }
{
    match item {
        Item::Declaration(d) => declaration_names(table, d, sampler, entry),
        Item::Function { head, body } => {
            head_names(table, head, entry);
            each_statement(table, body.as_slice());
        }
    }
}

/// Whether the type of the item of this number has a sampler, where it is known of those before it.
fn sampler_at(items: &[Item], samplers: &[bool], n: usize, item: &Item) -> bool
    requires within { n ≤ length items.now }
    requires room { n ≤ length samplers.now }
    requires known { take n samplers.now ≡ samplers_from [] (take n items.now) }
    ensures { result ≡ item_sampler (structures_after [] (take n items.now)) item.now }
{
    let before = Before {
        items: &items[..n],
        samplers: &samplers[..n],
    };
    item_has_sampler(&before, item)
}

/// Adds the names that a shader declares.
pub(crate) fn number_names(table: &mut Table<'_>)
    requires first { names_in table.old ≡ None ∷ [] }
    requires next { table.old.next ≡ 1 }
    requires tokens { length (joined (map item_tokens table.old.items.now)) ≤ 131072 }
    ensures names { names_in table.new ≡ None ∷ names_from [] table.old.items.now }
    ensures next { table.new.next ≤ 131073 }
    ensures items { table.new.items.now ≡ table.old.items.now }
{
    let items = table.items;
    let mut samplers = [false; MOST_ITEMS];
    for (n, item) in items.iter().enumerate() {
        let sampler = sampler_at(items, &samplers, n, item);
        item_names(table, item, sampler, n as u32 + 3);
        samplers[n] = sampler;
    }
}
