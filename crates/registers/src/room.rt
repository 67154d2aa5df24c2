// Room for every register (proved: `LongestRegister`, `LongestTextRegister`).
ghost use Rattle.std.specs.Prelude.{◌≡◌, length};
ghost use Rattle.registers.specs.Longest.{longest};

const LONGEST: usize = 1300000;

pub fn room() -> [u8; LONGEST]
    ensures { longest ≡ length result }
{
    [0; LONGEST]
}
