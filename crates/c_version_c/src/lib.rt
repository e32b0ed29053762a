// The export of c_version for a program in C.
#![tactic(auto)]

ghost use Rattle.c_version.specs.Version.{VersionPromise};

// The version as one number: 10,000 times the first, 100 times the second, and the third.
#[unsafe(no_mangle)]
pub extern "C" fn oarcradler_version_3_1() -> u32
    ensures { VersionPromise result }
{
    c_version::oarcradler_version_3_1()
}
