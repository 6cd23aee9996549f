//! The items of a file (C99 6.9).

ghost use Rattle.std.specs.Prelude.{◌≡◌, [], IfOk, map};
ghost use Rattle.c_ast.specs.Sizes.{IsCountable, size_item, size_items};
ghost use Rattle.c_ast.specs.Trees;
ghost use Rattle.c_ast.specs.Views.{item_of, items_of};
ghost use Rattle.c_erasure.specs.Checking.Files.{annotated as annotated_in, filed, filed_item, unread as unread_in};
ghost use Rattle.c_externals.specs.Filing.{Files};
ghost use Rattle.c_nodes.specs.Gives.{Gives};
ghost use Rattle.c_scopes.specs.Scoping.{file_of};
ghost use Rattle.c_scopes.specs.SyntaxTags.Untagged.{untagged_by};
ghost use Rattle.c_check.specs.FileItems.Lists.{AreListsOf};

use crate::file_declarations::declaration;
use crate::file_items::definitions::definition;
use c_ast::{Item, Tree};
use c_externals::closed;
use c_nodes::Fault;
use c_scopes::{BoundNames, FileScope, Tags};
use c_tree_sizes::nodes_of_item;
use c_types::Records;
use lay_base::List;
use std::alloc::Global;

/// A file before its first item: what its syntax alone tells.
fn unread(alloc: Global, number: u16, tags: Tags) -> FileScope
    ensures { (items : List Trees.Item) → AreListsOf items tags → file_of result ≡ unread_in number (untagged_by tags.untagged) items }
{
    FileScope {
        alloc,
        number,
        names: BoundNames::new(alloc),
        tags,
        records: Records::new(alloc),
        objects: List::new(alloc),
        functions: List::new(alloc),
        mentions: List::new(alloc),
    }
}

/// An item of a file, after those before it: how many nodes it has.
#[tactic(auto, unfolding(c_erasure::specs::Checking::Files::filed_item))]
fn file_item(item: &Item, file: &mut FileScope) -> Result<u64, Fault>
    requires { IsCountable (size_item (item_of item.now)) }
    ensures filed { Files result (filed_item (item_of item.now) (file_of file.old)) file.new }
    ensures nodes { IfOk result (λ nodes. nodes ≡ (size_item (item_of item.now)).nodes) }
{
    let nodes = nodes_of_item(item);
    match item {
        Item::Function(f) => definition(f, nodes, file)?,
        Item::Declaration(d) => declaration(d, nodes, file)?,
    }
    Ok(nodes)
}

/// An item of a file, which is let go behind it.
fn finished_item(item: Item, file: &mut FileScope) -> Result<u64, Fault>
    requires { IsCountable (size_item (item_of item)) }
    ensures filed { Files result (filed_item (item_of item) (file_of file.old)) file.new }
    ensures nodes { IfOk result (λ nodes. nodes ≡ (size_item (item_of item)).nodes) }
{
    file_item(&item, file)
}

/// The items of a file, one after the other: how many nodes they have. Each is let go before the next, while it is still at hand.
fn file_items(items: List<Item>, file: &mut FileScope) -> Result<u64, Fault>
    requires { IsCountable (size_items (map item_of items)) }
    ensures filed { Files result (filed (map item_of items) (file_of file.old)) file.new }
    ensures nodes { IfOk result (λ nodes. nodes ≡ (size_items (map item_of items)).nodes) }
{
    let mut nodes: u64 = 0;
    for item in items.into_vec() {
        match finished_item(item, file) {
            Ok(count) => nodes += count,
            Err(fault) => return Err(fault),
        }
    }
    Ok(nodes)
}

/// The annotated file of a tree, which has that number among the files of its program, and how many nodes the tree has; or a fault of it. `tags` are
/// those of the tree.
#[tactic(auto, unfolding(c_erasure::specs::Checking::Files::annotated))]
pub fn annotated(
    alloc: Global,
    number: u16,
    tags: Tags,
    tree: Tree,
) -> Result<(FileScope, u64), Fault>
    requires lists { AreListsOf (items_of tree) tags }
    requires countable { IsCountable (size_items (items_of tree)) }
    ensures found { Gives (λ found. file_of found.0) result (annotated_in number (untagged_by tags.untagged) (items_of tree)) }
    ensures nodes { IfOk result (λ found. found.1 ≡ (size_items (items_of tree)).nodes) }
{
    let mut file = unread(alloc, number, tags);
    let nodes = file_items(tree.items, &mut file)?;
    let file = closed(file)?;
    Ok((file, nodes))
}
