//! The depth and the number of nodes of a tree and of its items.

ghost use Rattle.std.specs.Prelude.{◌≡◌};
ghost use Rattle.c_ast.specs.Sizes.{IsCountable, size_item, size_items};
ghost use Rattle.c_ast.specs.Views.{item_of, items_of};

use crate::measuring::{item_size, items_size};
use c_ast::{Item, Tree};

/// How many nodes of a tree, at most, stand one below another.
pub fn depth(tree: &Tree) -> u32
    requires { IsCountable (size_items (items_of tree.now)) }
    ensures { result ≡ (size_items (items_of tree.now)).depth }
{
    items_size(tree.items.as_slice()).depth
}

/// The number of nodes of a tree.
pub fn nodes(tree: &Tree) -> u64
    requires { IsCountable (size_items (items_of tree.now)) }
    ensures { result ≡ (size_items (items_of tree.now)).nodes }
{
    items_size(tree.items.as_slice()).nodes
}

/// The number of nodes of one item of a file.
pub fn nodes_of_item(item: &Item) -> u64
    requires { IsCountable (size_item (item_of item.now)) }
    ensures { result ≡ (size_item (item_of item.now)).nodes }
{
    item_size(item).nodes
}
