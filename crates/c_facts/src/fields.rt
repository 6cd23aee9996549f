//! The fields on a path.

ghost use Rattle.c_typed.specs.Views.{path_of};
ghost use Rattle.c_facts.specs.Fields.{site, taken};
ghost use Rattle.c_facts.specs.Puts.{Puts};

use crate::fact::Fact;
use crate::found::{Found, put};
use c_typed::{Path, PathNode};

/// Adds the access to the field in which a path ends.
pub fn put_site(found: &mut Found, is_read: bool, p: &Path)
    ensures { Puts found.old found.new (site is_read (path_of p.now)) }
{
    match &p.node {
        PathNode::Member(_, r, field) => put(found, Fact::Site(*r, *field, is_read)),
        PathNode::Element(p, _) => put_site(found, is_read, p.get()),
        _ => {}
    }
}

/// Adds the fields of which the address of the path's object is, or is a part.
pub fn put_taken(found: &mut Found, p: &Path)
    ensures { Puts found.old found.new (taken (path_of p.now)) }
{
    match &p.node {
        PathNode::Member(within, r, _) => {
            put(found, Fact::Taken(*r, p.place));
            put_taken(found, within.get());
        }
        PathNode::Element(p, _) => put_taken(found, p.get()),
        _ => {}
    }
}
