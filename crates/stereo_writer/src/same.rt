// Contents compared.
ghost use Rattle.std.specs.Prelude.{◌≡◌};
ghost use Rattle.stereo_writer.specs.Same.{same_contents};

use stereo::Contents;

// Whether contents are the same.
pub fn same_contents(a: Contents, b: Contents) -> bool
    ensures { result ≡ same_contents a b }
{
    a == b
}
