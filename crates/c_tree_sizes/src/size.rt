//! The size of nodes by those of their parts.

ghost use Rattle.std.specs.Prelude.{◌≡◌};
ghost use Rattle.c_ast.specs.Sizes.{IsCountable, beside, empty, leaf, over};

use c_ast::Size;

/// The size of nothing.
pub fn empty() -> Size
    ensures { result ≡ empty }
{
    Size { depth: 0, nodes: 0 }
}

/// The size of a node without parts.
pub fn leaf() -> Size
    ensures { result ≡ leaf }
{
    Size { depth: 1, nodes: 1 }
}

/// The size of two parts that stand beside one another.
pub fn beside(a: Size, b: Size) -> Size
    requires { IsCountable (beside a b) }
    ensures { result ≡ beside a b }
{
    Size {
        depth: if a.depth < b.depth { b.depth } else { a.depth },
        nodes: a.nodes + b.nodes,
    }
}

/// The size of a node over its parts.
pub fn over(a: Size) -> Size
    requires { IsCountable (over a) }
    ensures { result ≡ over a }
{
    Size {
        depth: a.depth + 1,
        nodes: a.nodes + 1,
    }
}
