//! Laws about what the checker answers for whole files.

ghost use Rattle.c_checking_laws.specs.WholeFiles.Found.{AnnotatedFilesAreFound};

use crate::text_order::texts_are_in_order;
use c_lexer::tokens_have_places;

/// What `annotated` answers for the tree of a text is the annotated file of the tree. It is asked that the
/// names of structures without a tag begin as no identifier does.
pub fn annotated_files_are_found()
    ensures { AnnotatedFilesAreFound }
{
    tokens_have_places();
    texts_are_in_order();
}
