//! The call for C that tells the version.
ghost use Rattle.std.specs.Prelude.{◌≡◌};

/// Returns the version of the library as one number: ten thousand times the first of its three numbers, a hundred times
/// the second, and the third.
#[unsafe(no_mangle)]
pub extern "C" fn pigale_version() -> u32
    ensures { result ≡ 10100 }
{
    10_100
}
