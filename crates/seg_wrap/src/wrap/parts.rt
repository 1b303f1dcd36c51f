//! Parts of a text, between the points where its words are hyphenated.

ghost use Rattle.std.specs.Prelude.{◌≡◌, ◌<◌, Some, IfOk, OnOk, false};
ghost use Rattle.std.specs.List.{All};
ghost use Rattle.std.specs.Option.{option_map};
ghost use Rattle.seg_text.specs.Items.{start_of};
ghost use Rattle.seg_wrap.specs.declared.wrap.wrapping.Piece.{Piece};
ghost use Rattle.seg_wrap.specs.Pieces.{ArePartsOf, ArePieces, ArePlacesInside, PushesPart, PushesParts};
ghost use Rattle.seg_wrap.specs.Walk.{IsFirstSegment, measure_of};
ghost use Rattle.seg_wrap.specs.Wrapping.{count_before, rest_from};

use crate::wrap::measure::Measuring;
use crate::wrap::wrapping::Piece;
use seg_hyphens::patterns::HyphenationPatterns;
use seg_text::cursor::Cursor;
use std::alloc::{AllocError, Global};

/// The parts of these pieces, with which a text begins: cut at the points where patterns let words be hyphenated, if there are some.
pub(crate) fn parts<I: Cursor>(
    alloc: Global,
    patterns: Option<&HyphenationPatterns>,
    measuring: Measuring<'_>,
    text: &I,
    pieces: Vec<Piece>,
) -> Result<Vec<Piece>, AllocError>
    requires are { ArePieces (measure_of measuring) (I.text text.now) pieces.items }
    requires whole { All (λ (piece : Piece). piece.is_hyphenated ≡ false) pieces.items }
    ensures { IfOk result (λ parts. ArePartsOf (option_map (λ patterns. patterns.now) patterns.entry) (measure_of measuring.entry) (I.text text.now) pieces.items parts.items) }
{
    match patterns {
        Some(patterns) => cut(alloc, patterns, measuring, text, pieces.as_slice()),
        None => Ok(pieces),
    }
}

// The parts of these pieces by these patterns.
fn cut<I: Cursor>(
    alloc: Global,
    patterns: &HyphenationPatterns,
    measuring: Measuring<'_>,
    text: &I,
    pieces: &[Piece],
) -> Result<Vec<Piece>, AllocError>
    requires are { ArePieces (measure_of measuring) (I.text text.now) pieces.now }
    requires whole { All (λ (piece : Piece). piece.is_hyphenated ≡ false) pieces.now }
    ensures { IfOk result (λ parts. ArePartsOf (Some patterns.now) (measure_of measuring.entry) (I.text text.now) pieces.now parts.items) }
{
    let mut parts = Vec::new(alloc);
    let mut rest = text.fork();
    'pieces: for piece in pieces {
        let places = patterns.places(alloc, rest.up_to(piece.end))?;
        push_parts(*piece, places.as_slice(), measuring, &mut rest, &mut parts)?;
    }
    Ok(parts)
}

// Adds the parts of a piece, with which a text begins, between these places in it. The cursor goes over the piece.
fn push_parts<I: Cursor>(
    piece: Piece,
    places: &[usize],
    measuring: Measuring<'_>,
    text: &mut I,
    parts: &mut Vec<Piece>,
) -> Result<(), AllocError>
    requires first { IsFirstSegment (measure_of measuring) (I.text text.old) piece }
    requires whole { piece.is_hyphenated ≡ false }
    requires places { ArePlacesInside (I.text text.old) 0 (count_before piece.end (I.text text.old)) places.now }
    ensures parts { OnOk result (PushesParts (measure_of measuring.entry) (I.text text.old) piece places.now parts.old.items parts.new.items) }
    ensures text { OnOk result (I.text text.new ≡ rest_from piece.end (I.text text.old)) }
{
    'places: for place in places {
        let part = Piece {
            end: *place,
            is_hyphenated: true,
            is_mandatory: false,
            ..piece
        };
        push_part(part, measuring, text, parts)?;
    }
    push_part(piece, measuring, text, parts)
}

// Adds a part, with which a text begins, and its extent. The cursor goes over it.
fn push_part<I: Cursor>(
    part: Piece,
    measuring: Measuring<'_>,
    text: &mut I,
    parts: &mut Vec<Piece>,
) -> Result<(), AllocError>
    requires some { 0 < count_before part.end (I.text text.old) }
    requires at { part.end ≡ start_of (rest_from part.end (I.text text.old)) }
    ensures part { OnOk result (PushesPart (measure_of measuring.entry) (I.text text.old) part parts.old.items parts.new.items) }
    ensures text { OnOk result (I.text text.new ≡ rest_from part.end (I.text text.old)) }
{
    let extent = measuring.extent_of(text.up_to(part.end));
    text.seek(part.end);
    parts.push(Piece { extent, ..part })?;
    Ok(())
}
