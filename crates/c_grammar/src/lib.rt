//! The grammar as readers on lists of tokens (C99 6.5 to 6.9), and its theorems: what is read is spelled so, well formed and
//! so deep; whatever is so is read; tokens have one tree. Definitions and laws alone, on `c_lexer` and `c_ast`.
//!
//! Nobody has to believe these readers: they say what private functions compute. `c_cursor`, `c_expressions` and `c_parser` mirror them function by function.
#![tactic(auto)]
