//! Rules that were read, as rows that `seg_compile` reads. For `TextRules`.
ghost use Rattle.std.specs.Prelude.{◌≡◌, map, IfOk};
ghost use Rattle.seg_rules.specs.Given as given;
ghost use Rattle.seg_notation.specs.Texts.{row_of};

use crate::rows::OwnRow;
use seg_rules::rules::Row;
use std::alloc::{AllocError, Global};

/// Rules that were read, as rows.
pub(crate) fn rows_of(alloc: Global, rules: &[OwnRow]) -> Result<Vec<Row<'_>>, AllocError>
    ensures { IfOk result (λ rows. map given.row_of rows.items ≡ map row_of rules.now) }
{
    let mut rows = Vec::new(alloc);
    for rule in rules {
        rows.push(Row {
            left: rule.left.as_slice(),
            right: rule.right.as_slice(),
            verdict: rule.verdict,
        })?;
    }
    Ok(rows)
}
