// The set of an out to each of its members (document 02, slip 11).
ghost use Rattle.std.specs.Prelude.{◌≡◌};
ghost use Rattle.sound.specs.Soundness.{group_sound};

use net::locality::{Group, Locality};

// Whether each member is an address in use.
pub fn group_sound(n: usize, g: Group) -> bool
    ensures { result ≡ group_sound n g }
{
    (0u8..16).all(|l| !g.has(Locality(l)) || usize::from(l) < n)
}
