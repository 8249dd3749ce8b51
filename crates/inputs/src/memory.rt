// Memory of a fixed size.
ghost use Rattle.std.specs.Prelude.{◌≡◌, All, length};

// So many bytes, all of them 0. What lends them has to know how many they are.
pub fn zeros<const N: usize>() -> [u8; N]
    ensures long { N ≡ length result }
    ensures zero { All (λ b. b ≡ 0) result }
{
    [0; N]
}
