//! Versions, as 10,000 times the major number, 100 times the minor one and the update.

ghost use Rattle.std.specs.Prelude.{◌≡◌};
ghost use Rattle.yengatomu_c.specs.Versions.{unicode_version};

/// The version of this library.
#[unsafe(no_mangle)]
pub extern "C" fn yengatomu_version() -> u32
    ensures { result ≡ 10000 }
{
    10000
}

/// The version of the Unicode data of a kind: those of `icu_segmenter_uax29` and `icu_segmenter_uax14`. 0 for no such kind.
#[unsafe(no_mangle)]
pub extern "C" fn yengatomu_unicode_version(kind: u32) -> u32
    ensures { result ≡ unicode_version kind }
{
    match kind {
        0..=3 => 180000,
        _ => 0,
    }
}
