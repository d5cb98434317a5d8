//! The versions of the library.

ghost use Rattle.std.specs.Prelude.{◌≡◌, codes};
ghost use Rattle.omi_numbers.specs.declared.words.TheConstants.{OPENMP_VERSION};

use omi_numbers::OPENMP_VERSION;

/// The version of the API: that of OpenMP 5.0, as year and month.
pub const API_VERSION: u64 = OPENMP_VERSION;

/// The version of the API.
pub fn get_api_version() -> u64
    ensures { result ≡ OPENMP_VERSION }
{
    API_VERSION
}

/// The name and the version of this library.
pub fn get_version_string() -> &'static str
    ensures { result.now ≡ codes "omi ompd 1" }
{
    "omi ompd 1"
}
