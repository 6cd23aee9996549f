//! A search among ascending places.

ghost use Rattle.std.specs.Prelude.{◌≡◌};
ghost use Rattle.c_erasure.specs.Files.{AreAscending};
ghost use Rattle.c_erasure.specs.Scopes.{ended};

/// How many of the places stand before a byte.
pub fn ended(places: &[u32], at: u32) -> usize
    requires order { AreAscending places.now }
    ensures { result ≡ ended places.now at }
{
    let mut low: usize = 0;
    let mut high = places.len();
    while low < high {
        let middle = low + (high - low) / 2;
        if places[middle] < at {
            low = middle + 1;
        } else {
            high = middle;
        }
    }
    low
}
