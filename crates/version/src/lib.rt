// Which version of the library a program is linked with, so that it can ask before it calls anything else. specs/Version.antt says which.
#![tactic(auto)]

ghost use Rattle.std.specs.Prelude.{◌≡◌};
ghost use Rattle.version.specs.Version.{version};

const MAJOR: u32 = 0;

const MINOR: u32 = 2;

const PATCH: u32 = 0;

const VERSION: u32 = 10000 * MAJOR + 100 * MINOR + PATCH;

// The version as one number; that of a later version is larger.
#[unsafe(no_mangle)]
pub extern "C" fn rillmoth_version() -> u32
    ensures { result ≡ version }
{
    VERSION
}
