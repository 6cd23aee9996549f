//! A law about profiles.

ghost use Rattle.profile_file.specs.Text.{CountsAreOne};

/// A text is that of one profile at most.
pub fn counts_are_one()
    ensures { CountsAreOne }
{}
