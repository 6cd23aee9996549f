//! Why nothing was read.

ghost use Rattle.std.specs.Prelude.{◌≡◌};
ghost use Rattle.c_cursor.specs.declared.failure.Failure.TheVariants.{Memory};

use lay_base::NoMemory;

#[derive(Clone, Copy)]
pub enum Failure {
    /// Memory is out.
    Memory(NoMemory),
    /// What stands here cannot be read so. It is known by how many tokens are left where reading
    /// stopped.
    NoParse(usize),
}

impl From<NoMemory> for Failure {
    ghost from_gives = { λ want failure. failure ≡ Memory want };

    fn from(want: NoMemory) -> Failure {
        Failure::Memory(want)
    }
}
