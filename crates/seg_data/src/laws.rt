//! What is held of the numbers that data write.
ghost use Rattle.std.specs.Prelude.{◌≡◌, [], ◌∷◌};

use crate::provider::ComplexScript;

/// The numbers by which data name scripts: those of none, Myanmar, Chinese or Japanese, Khmer, Lao and Thai.
pub fn complex_script_numbers() -> [u8; 6]
    ensures { result ≡ 0 ∷ 1 ∷ 2 ∷ 3 ∷ 4 ∷ 5 ∷ [] }
{
    [
        ComplexScript::None as u8,
        ComplexScript::Myanmar as u8,
        ComplexScript::ChineseOrJapanese as u8,
        ComplexScript::Khmer as u8,
        ComplexScript::Lao as u8,
        ComplexScript::Thai as u8,
    ]
}
