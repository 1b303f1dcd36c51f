//! What is asked, and by what it is answered.

use crate::row::Row;
use crate::segmenters::{Manner, same_clusters, segmenter_answer};
use crate::{items, line_classes, machines, memos, names, pieces, readers, same, tables};
use anyhow::Result;
use std::alloc::Global;

/// The answer to a row. The errors are why the data are rejected, a row that can't be read, and out of memory.
pub fn answer_of(alloc: Global, row: Row<'_>) -> Result<String> {
    match row.words("find")? {
        "items" => items::items(alloc, row),
        "slices" => items::slice(alloc, row),
        "rests" => items::rest(alloc, row),
        "encodings" => items::encoding(alloc, row),
        "tables" => tables::table(alloc, row),
        "machines" => machines::machine(alloc, row),
        "machine parts" => machines::machine_parts(alloc, row),
        "steps" => machines::step(alloc, row),
        "boundaries" => machines::boundaries(alloc, row),
        "statuses" => machines::statuses(alloc, row),
        "tailorings" => machines::tailored(alloc, row),
        "same clusters" => same_clusters(alloc, row),
        "look-ups" => memos::look_ups(alloc, row),
        "look-ups by a reader" => readers::look_ups_by_a_reader(alloc, row),
        "wrapped lines" => segmenter_answer(alloc, row, "lines by machine", Manner::Wrapped),
        question => other_answer(alloc, row, question),
    }
}

// The answer to any other question.
fn other_answer(alloc: Global, row: Row<'_>, question: &str) -> Result<String> {
    match question {
        "cuts" => pieces::cuts(alloc, row),
        "cuts of runs" => pieces::run_cuts(alloc, row),
        "pieces" => pieces::pieces(alloc, row),
        "answers" => pieces::answers(alloc, row),
        "forks" => pieces::forks(alloc, row),
        "scripts" => names::script(alloc, row),
        "break states" => names::break_state(alloc, row),
        "acceptances" => names::acceptance(alloc, row),
        "word types" => names::word_type(alloc, row),
        "languages" => names::language(alloc, row),
        "errors" => names::error(alloc, row),
        "faults" => names::fault(alloc, row),
        "line classes" => line_classes::line_class(alloc, row),
        _ => answer_by_segmenters(alloc, row, question),
    }
}

// Whether data are the same, or what segmenters find.
fn answer_by_segmenters(alloc: Global, row: Row<'_>, question: &str) -> Result<String> {
    if let Some(name) = question.strip_prefix("same ") {
        return same::sameness(alloc, row, name);
    }
    if let Some(kind) = question.strip_prefix("memo of ") {
        return segmenter_answer(alloc, row, kind, Manner::Memo);
    }
    if let Some(kind) = question.strip_prefix("shown ") {
        return segmenter_answer(alloc, row, kind, Manner::Shown);
    }
    segmenter_answer(alloc, row, question, Manner::Boundaries)
}

/// An answer, or the number and the name of why the data are rejected. Fails only when out of memory.
pub fn or_fault(alloc: Global, answer: Result<String>) -> Result<String> {
    match answer {
        Ok(answer) => Ok(answer),
        Err(error) => {
            let shown = format!(in alloc; "{error}")?;
            let (fault, _text) = shown
                .as_str()
                .split_once(':')
                .unwrap_or((shown.as_str(), ""));
            Ok(fault.to_owned(alloc)?)
        }
    }
}
