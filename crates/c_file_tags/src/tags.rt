//! The tags of a file, found in its tokens and in its tree.

ghost use Rattle.std.specs.Prelude.{◌≤◌, IfOk, length};
ghost use Rattle.c_tokens.specs.Lexes.{Lexes};
ghost use Rattle.c_ast.specs.TreesOfFiles.{IsTreeOf};
ghost use Rattle.c_ast.specs.Views.{items_of};
ghost use Rattle.c_scopes.specs.SyntaxTags.TagLists.{AreTagsOf};

use crate::tables::{Tables, tables_of};
use crate::untagged_structs::untagged_of;
use c_ast::Tree;
use c_lexer::{texts_have_one_reading, tokens_have_places};
use c_scopes::Tags;
use c_tokens::Token;
use lay_base::{File, NoMemory};
use std::alloc::Global;

/// The tags of a file with these tokens and this tree.
pub fn tags_of(alloc: Global, tokens: &[Token], tree: &Tree, file: &File) -> Result<Tags, NoMemory>
    requires short { length file.now.bytes ≤ 4194304 }
    requires tokens { Lexes file.now.bytes tokens.now }
    requires tree { IsTreeOf file.now.bytes (items_of tree.now) }
    ensures { IfOk result (AreTagsOf file.now.name file.now.bytes (items_of tree.now)) }
{
    texts_have_one_reading();
    tokens_have_places();
    let untagged = untagged_of(alloc, tokens, file)?;
    let tables = tables_of(alloc, &untagged, tree)?;
    let Tables {
        tags,
        ends,
        numbered,
    } = tables;
    Ok(Tags::of(untagged, tags, ends, numbered))
}
