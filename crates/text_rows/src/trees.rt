//! What is asked of the tree of a text.

ghost use Rattle.std.specs.Prelude.{◌≡◌, ◌≤◌, All, length};
ghost use Rattle.c_ast.specs.Sizes.{IsCountable, size_item, size_items};
ghost use Rattle.c_ast.specs.TreesOfFiles.{IsTreeOf};
ghost use Rattle.c_ast.specs.Views.{item_of, items_of};
ghost use Rattle.c_tokens.specs.Lexes.{Lexes};

use crate::row::OfTree;
use crate::tag_text::put_tags;
use crate::tokens::FILE;
use crate::tree_text::put_tree;
use c_ast::{Item, Tree};
use c_file_tags::tags_of;
use c_lexer::lex;
use c_parser::{ParseFault, parse, trees_are_small};
use c_tokens::Tokens;
use c_tree_sizes::{depth, nodes, nodes_of_item};
use lay_base::{File, Place, keyword_text};
use row_lines::Writer;
use std::alloc::Global;

fn put_place(out: &mut Writer, place: Place) {
    out.number(u64::from(place.file));
    out.number(u64::from(place.at));
}

/// That tokens have no tree. Where they stop is told if it is asked for.
fn put_no_tree(out: &mut Writer, asked: OfTree, place: Place) {
    match asked {
        OfTree::Outcome => {
            out.word("NoParse");
            put_place(out, place);
        }
        _ => out.word("no tree"),
    }
}

/// Why tokens have no tree.
fn put_fault(out: &mut Writer, asked: OfTree, fault: ParseFault) {
    match fault {
        ParseFault::NoParse(place) => put_no_tree(out, asked, place),
        ParseFault::Unsupported(keyword, place) => {
            out.word("Unsupported");
            out.bytes(keyword_text(keyword));
            put_place(out, place);
        }
        ParseFault::Memory(_) => out.word("out of memory"),
    }
}

/// The number of the file of a tree.
fn put_outcome(out: &mut Writer, tree: &Tree) {
    out.word("tree");
    out.number(u64::from(tree.file));
}

fn put_placed(out: &mut Writer, tree: &Tree) {
    out.show_places();
    put_tree(out, tree);
}

/// The number of nodes, and the depth.
fn put_size(out: &mut Writer, tree: &Tree)
    requires { IsCountable (size_items (items_of tree.now)) }
{
    out.number(nodes(tree));
    out.number(u64::from(depth(tree)));
}

/// The number of nodes of each item.
fn put_items(out: &mut Writer, items: &[Item])
    requires { All (λ item. IsCountable (size_item (item_of item))) items.now }
{
    for item in items {
        out.number(nodes_of_item(item));
    }
}

fn put_tags_of(out: &mut Writer, alloc: Global, file: &File, tokens: &Tokens, tree: &Tree)
    requires short { length file.now.bytes ≤ 4194304 }
    requires tokens { Lexes file.now.bytes tokens.now.list }
    requires tree { IsTreeOf file.now.bytes (items_of tree.now) }
{
    let list = tokens.list.as_slice();
    match tags_of(alloc, list, tree, file) {
        Ok(tags) => put_tags(out, &tags, file.bytes.as_slice(), list),
        Err(_) => out.word("out of memory"),
    }
}

#[tactic(auto, using(crate::proofs::Items::are_countable))]
fn put_asked(
    out: &mut Writer,
    alloc: Global,
    asked: OfTree,
    file: &File,
    tokens: &Tokens,
    tree: &Tree,
)
    requires short { length file.now.bytes ≤ 4194304 }
    requires tokens { Lexes file.now.bytes tokens.now.list }
    requires tree { IsTreeOf file.now.bytes (items_of tree.now) }
{
    trees_are_small();
    match asked {
        OfTree::Outcome => put_outcome(out, tree),
        OfTree::Shape => put_tree(out, tree),
        OfTree::Places => put_placed(out, tree),
        OfTree::Size => put_size(out, tree),
        OfTree::Items => put_items(out, tree.items.as_slice()),
        OfTree::Tags => put_tags_of(out, alloc, file, tokens, tree),
    }
}

fn put_of_lexed(out: &mut Writer, alloc: Global, asked: OfTree, file: &File, tokens: &Tokens)
    requires short { length tokens.now.bytes ≤ 4194304 }
    requires same { file.now.bytes ≡ tokens.now.bytes }
    requires tokens { Lexes tokens.now.bytes tokens.now.list }
{
    match parse(alloc, tokens) {
        Ok(tree) => put_asked(out, alloc, asked, file, tokens, &tree),
        Err(fault) => put_fault(out, asked, fault),
    }
}

/// What is asked of the tree of a file, or why it has none.
pub fn put_of_tree(out: &mut Writer, alloc: Global, asked: OfTree, file: &File)
    requires { length file.now.bytes ≤ 4194304 }
{
    match lex(alloc, file.bytes.as_slice(), FILE) {
        Ok(tokens) => put_of_lexed(out, alloc, asked, file, &tokens),
        Err(fault) => out.value(&fault),
    }
}
