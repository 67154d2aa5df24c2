// Readings compared (document 01, "One pick": an actual equal in sort and value).
ghost use Rattle.std.specs.Prelude.{◌≡◌};
ghost use Rattle.net.specs.Readings.{same_reading};

pub fn same_reading(x: i32, y: i32) -> bool
    ensures { result ≡ same_reading x y }
{
    x == y
}
