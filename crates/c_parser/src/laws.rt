//! Laws about trees.

ghost use Rattle.c_ast.specs.Laws.{NodesHavePlaces, TreesAreSmall, TreesBeginFirst};
ghost use Rattle.c_ast.specs.TreesOfFiles.{FilesHaveOneTree, TreesAreOne};

use c_lexer::{texts_have_one_reading, tokens_have_places};

/// Tokens have at most one well formed tree that is no deeper than 400.
pub fn tokens_have_one_tree()
    ensures { TreesAreOne }
{}

/// The bytes of a file have at most one tree.
pub fn files_have_one_tree()
    ensures { FilesHaveOneTree }
{
    texts_have_one_reading();
}

/// The tree of a file has no more nodes than the file has bytes and is no deeper than 400, so those of a
/// file of at most 4 MiB can be counted.
pub fn trees_are_small()
    ensures { TreesAreSmall }
{
    tokens_have_places();
}

/// Expressions, specifiers, declarators, declarations, statements and items begin at their first tokens.
pub fn trees_begin_first()
    ensures { TreesBeginFirst }
{}

/// Each node of a tree stands at one of its tokens, so there are tokens before it in its file.
pub fn nodes_have_places()
    ensures { NodesHavePlaces }
{
    tokens_have_places();
}
