//! Which typed trees are those of a syntax tree: one rule for each alternative of the grammar (C99 6.5 to 6.9), and where the marks of a file stand
//! (`MarkPlaces`, C99 6.2.1, 6.7.2.3). The checker as functions on plain trees (`Checking`).
//!
//! A file's tree is related to an annotated file, in which all that the file declares stands in lists (`FileScope`). Nothing is threaded through the tree: a
//! node looks up what stands for its name at its own byte (C99 6.2.1), and a declaration asks that what it declares is among those lists, at its place. That
//! nothing else is in them is said once for the whole file (`IsFileOf`). `ErasesTo` joins these with the rules of types; `IsFaultOf` says which rule is broken
//! where, and several may be broken in one file.
//!
//! It stands on `c_ast` and `c_typed`, and has definitions and laws alone. The functions of `Checking` go through a tree from left to right with all that
//! is declared up to there, and the crates of the checker mirror them; what is proved of them stands in crates of laws, from `c_checking_laws` on, on which
//! no code of the checker stands. What `Checking` defines is no part of what a reader has to believe.
#![tactic(auto)]
