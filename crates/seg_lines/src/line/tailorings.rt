//! The tailorings of machines of lines, by their names.
ghost use Rattle.std.specs.Prelude.{◌≡◌, Some, None, IfOk, IfErr};
ghost use Rattle.seg_data.specs.declared.provider.DataError.TheVariants.{MissingTailoring};
ghost use Rattle.seg_lines.specs.Options.{tailoring_named, tailoring_for};

use crate::line::options::Tailoring;
use crate::provider::TailoringsOf;
use seg_data::provider::DataError;

// The tailoring of this name, if there is a name. `MissingTailoring` where it isn't there.
pub(super) fn tailoring_for<T: Drop>(
    tailorings: TailoringsOf<T>,
    name: Option<Tailoring>,
) -> Result<Option<T>, DataError>
    ensures found { IfOk result (λ t. tailoring_for tailorings name ≡ Some t) }
    ensures missing { IfErr result (λ fault. (fault ≡ MissingTailoring) × (tailoring_for tailorings name ≡ None)) }
{
    let Some(name) = name else {
        return Ok(None);
    };
    match named(tailorings, name) {
        Some(tailoring) => Ok(Some(tailoring)),
        None => Err(DataError::MissingTailoring),
    }
}

// The tailoring of this name, without the others.
pub(super) fn named<T: Drop>(tailorings: TailoringsOf<T>, name: Tailoring) -> Option<T>
    ensures { result ≡ tailoring_named tailorings name }
{
    match name {
        Tailoring::BreakAll => tailorings.breakall,
        Tailoring::KeepAll => tailorings.keepall,
        Tailoring::JaLoose => tailorings.ja_loose,
        Tailoring::Loose => tailorings.loose,
        Tailoring::JaNormal => tailorings.ja_normal,
        Tailoring::Normal => tailorings.normal,
        Tailoring::Ja => tailorings.ja,
    }
}
