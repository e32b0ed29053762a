// The version of the functions for a program in C. The first two of its numbers stand in the function's name too, so that a program
// which calls it links with no archive of another version.
#![tactic(auto)]

ghost use Rattle.std.specs.Prelude.{◌≡◌};
ghost use Rattle.c_version.specs.Version.{VersionPromise};

// The version as one number: 10,000 times the first, 100 times the second, and the third.
pub fn oarcradler_version_3_1() -> u32
    ensures { VersionPromise result }
{
    30100
}
