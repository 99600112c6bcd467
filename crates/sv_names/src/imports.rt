//! Imports that are none of this subset: one whose text is not `"DPI-C"`, a pure one without result, and one with more
//! than eight arguments (IEEE 1800-2017 35.5.2, 35.5.4).

ghost use Rattle.std.specs.Prelude.{◌≡◌};
ghost use Rattle.sv_names.specs.Noted as spec;

use crate::spelled::is_spelled;
use sv_tree::{Argument, CommaList, Import, Names, Token};
use vs_base::Origin;

/// The text of an import, in its quotes.
const DPI: &[u8] = b"\"DPI-C\"";

/// The place of the first fault of an import: its text, `pure`, or its ninth argument.
pub fn bad_import(names: &Names, import: &Import) -> Option<Origin>
    ensures { result ≡ spec.bad_import names.now import.now }
{
    if !is_spelled(names, import.text, DPI) {
        return Some(import.text.at);
    }
    match pure_without_result(names, import.manner, import.result.word) {
        Some(at) => Some(at),
        None => ninth_argument(&import.args),
    }
}

/// The place of the word `pure` of an import without result.
fn pure_without_result(names: &Names, manner: Option<Token>, result_word: Token) -> Option<Origin>
    ensures { result ≡ spec.pure_without_result names.now manner result_word }
{
    let Some(manner) = manner else {
        return None;
    };
    if is_spelled(names, manner, b"pure") && is_spelled(names, result_word, b"void") {
        return Some(manner.at);
    }
    None
}

/// The place of the first token of the ninth argument.
fn ninth_argument(args: &Option<CommaList<Argument>>) -> Option<Origin>
    ensures { result ≡ spec.ninth_argument args.now }
{
    let Some(list) = args else {
        return None;
    };
    match list.more.get(7) {
        Some(joined) => Some(argument_at(joined.item)),
        None => None,
    }
}

/// The place of the first token of an argument.
fn argument_at(argument: Argument) -> Origin
    ensures { result ≡ spec.argument_at argument }
{
    match argument.input {
        Some(word) => word.at,
        None => argument.kind.word.at,
    }
}
