// The engine's version.
ghost use Rattle.std.specs.Prelude.{◌≡◌};
ghost use Rattle.c_abi.specs.Version.{version_number};

// The version as one number.
#[unsafe(no_mangle)]
pub extern "C" fn ltd_version() -> u32
    ensures { result ≡ version_number }
{
    65792
}
