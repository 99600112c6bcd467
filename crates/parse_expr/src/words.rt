//! Types, ranges, labels and settings (IEEE 1800-2017 A.2.2.1, A.2.4, A.2.5).

ghost use Rattle.std.specs.Prelude.{◌≤◌, length, IfOk, IfErr};
ghost use Rattle.sv_tree.specs.Symbol.{is_fixed, is_sign};
ghost use Rattle.sv_tree.specs.TreeRead.{maybe, one_of};
ghost use Rattle.sv_tree.specs.TreeItem as item;
ghost use Rattle.sv_tree.specs.TreeWords as words;
ghost use Rattle.parse_expr.specs.Parsed.{Parsed, IsWithin};

use crate::class::{
    begins_type, is_argument, is_fixed, is_result, is_sign, is_signable, is_vector,
};
use crate::expression::expr;
use crate::fault::ParseFault;
use crate::source::{Source, enter, syntax};
use sv_tree::{DataType, Dimension, Initial, Label, Range, Setting, Symbol, Token, WordType};

/// `"[" expr ":" expr "]"`
pub fn range(source: &Source<'_>, at: &mut usize, depth: u32) -> Result<Range, ParseFault>
    requires deep { depth ≤ 128 }
    requires within { at.old ≤ length source.now.tokens }
    ensures reads { IfOk result (λ x. Parsed source.now depth at.old at.new (words.range x)) }
    ensures fault { IfErr result (λ f. IsWithin source.now f) }
{
    let opening = enter(source, at, depth, Symbol::BracketOpen)?;
    let left = expr(source, at, depth + 1)?;
    let colon = source.expect(at, Symbol::Colon)?;
    let right = expr(source, at, depth + 1)?;
    let close = source.expect(at, Symbol::BracketClose)?;
    Ok(Range {
        open: opening,
        left,
        colon,
        right,
        close,
    })
}

/// `[ range ]`
pub fn range_if(
    source: &Source<'_>,
    at: &mut usize,
    depth: u32,
) -> Result<Option<Range>, ParseFault>
    requires deep { depth ≤ 128 }
    requires within { at.old ≤ length source.now.tokens }
    ensures reads { IfOk result (λ x. Parsed source.now depth at.old at.new (maybe words.range x)) }
    ensures fault { IfErr result (λ f. IsWithin source.now f) }
{
    if !source.sees(*at, Symbol::BracketOpen) {
        return Ok(None);
    }
    let range = range(source, at, depth)?;
    Ok(Some(range))
}

/// `[ sign ]`
fn sign_if(source: &Source<'_>, at: &mut usize, depth: u32) -> Result<Option<Token>, ParseFault>
    requires deep { depth ≤ 128 }
    requires within { at.old ≤ length source.now.tokens }
    ensures reads { IfOk result (λ x. Parsed source.now depth at.old at.new (maybe (one_of is_sign) x)) }
    ensures fault { IfErr result (λ f. IsWithin source.now f) }
{
    if !is_sign(source.peek(*at)) {
        return Ok(None);
    }
    let sign = source.take(at)?;
    Ok(Some(sign))
}

/// `fixed [ sign ]`
pub fn fixed_type(source: &Source<'_>, at: &mut usize, depth: u32) -> Result<WordType, ParseFault>
    requires deep { depth ≤ 128 }
    requires within { at.old ≤ length source.now.tokens }
    ensures reads { IfOk result (λ x. Parsed source.now depth at.old at.new (words.word_type is_fixed x)) }
    ensures fault { IfErr result (λ f. IsWithin source.now f) }
{
    if !is_fixed(source.peek(*at)) {
        return Err(syntax(*at));
    }
    let word = source.take(at)?;
    let sign = sign_if(source, at, depth)?;
    Ok(WordType { word, sign })
}

/// `rtype`, the type of an import's result. Only a type that has its width takes a sign.
pub fn result_type(source: &Source<'_>, at: &mut usize, depth: u32) -> Result<WordType, ParseFault>
    requires deep { depth ≤ 128 }
    requires within { at.old ≤ length source.now.tokens }
    ensures reads { IfOk result (λ x. Parsed source.now depth at.old at.new (words.result_type x)) }
    ensures fault { IfErr result (λ f. IsWithin source.now f) }
{
    let symbol = source.peek(*at);
    if !is_result(symbol) {
        return Err(syntax(*at));
    }
    let word = source.take(at)?;
    if !is_signable(symbol) {
        return Ok(WordType { word, sign: None });
    }
    let sign = sign_if(source, at, depth)?;
    Ok(WordType { word, sign })
}

/// `atype`, the type of an import's argument. Only a type that has its width takes a sign.
pub fn argument_type(
    source: &Source<'_>,
    at: &mut usize,
    depth: u32,
) -> Result<WordType, ParseFault>
    requires deep { depth ≤ 128 }
    requires within { at.old ≤ length source.now.tokens }
    ensures reads { IfOk result (λ x. Parsed source.now depth at.old at.new (words.argument_type x)) }
    ensures fault { IfErr result (λ f. IsWithin source.now f) }
{
    let symbol = source.peek(*at);
    if !is_argument(symbol) {
        return Err(syntax(*at));
    }
    let word = source.take(at)?;
    if !is_signable(symbol) {
        return Ok(WordType { word, sign: None });
    }
    let sign = sign_if(source, at, depth)?;
    Ok(WordType { word, sign })
}

/// `vec [ sign ] [ range ] | fixed [ sign ]`, the type of a variable.
pub fn variable_type(
    source: &Source<'_>,
    at: &mut usize,
    depth: u32,
) -> Result<DataType, ParseFault>
    requires deep { depth ≤ 128 }
    requires within { at.old ≤ length source.now.tokens }
    ensures reads { IfOk result (λ x. Parsed source.now depth at.old at.new (words.variable_type x)) }
    ensures fault { IfErr result (λ f. IsWithin source.now f) }
{
    if !is_vector(source.peek(*at)) {
        let fixed = fixed_type(source, at, depth)?;
        return Ok(DataType::Fixed(fixed));
    }
    let word = source.take(at)?;
    let sign = sign_if(source, at, depth)?;
    let range = range_if(source, at, depth)?;
    Ok(DataType::Vector { word, sign, range })
}

/// `sign [ range ]`
fn signed_type(source: &Source<'_>, at: &mut usize, depth: u32) -> Result<DataType, ParseFault>
    requires deep { depth ≤ 128 }
    requires within { at.old ≤ length source.now.tokens }
    ensures reads { IfOk result (λ x. Parsed source.now depth at.old at.new (words.data_type x)) }
    ensures fault { IfErr result (λ f. IsWithin source.now f) }
{
    if !is_sign(source.peek(*at)) {
        return Err(syntax(*at));
    }
    let sign = source.take(at)?;
    let range = range_if(source, at, depth)?;
    Ok(DataType::Signed { sign, range })
}

/// `type = vec [ sign ] [ range ] | fixed [ sign ] | sign [ range ] | range`
pub fn data_type(source: &Source<'_>, at: &mut usize, depth: u32) -> Result<DataType, ParseFault>
    requires deep { depth ≤ 128 }
    requires within { at.old ≤ length source.now.tokens }
    ensures reads { IfOk result (λ x. Parsed source.now depth at.old at.new (words.data_type x)) }
    ensures fault { IfErr result (λ f. IsWithin source.now f) }
{
    let symbol = source.peek(*at);
    if is_vector(symbol) || is_fixed(symbol) {
        return variable_type(source, at, depth);
    }
    if symbol == Symbol::BracketOpen {
        let range = range(source, at, depth)?;
        return Ok(DataType::Ranged(range));
    }
    signed_type(source, at, depth)
}

/// `[ type ]`
pub fn data_type_if(
    source: &Source<'_>,
    at: &mut usize,
    depth: u32,
) -> Result<Option<DataType>, ParseFault>
    requires deep { depth ≤ 128 }
    requires within { at.old ≤ length source.now.tokens }
    ensures reads { IfOk result (λ x. Parsed source.now depth at.old at.new (maybe words.data_type x)) }
    ensures fault { IfErr result (λ f. IsWithin source.now f) }
{
    if !begins_type(source.peek(*at)) {
        return Ok(None);
    }
    let kind = data_type(source, at, depth)?;
    Ok(Some(kind))
}

/// `":" NAME`
pub fn label(source: &Source<'_>, at: &mut usize, depth: u32) -> Result<Label, ParseFault>
    requires deep { depth ≤ 128 }
    requires within { at.old ≤ length source.now.tokens }
    ensures reads { IfOk result (λ x. Parsed source.now depth at.old at.new (words.label x)) }
    ensures fault { IfErr result (λ f. IsWithin source.now f) }
{
    let colon = source.expect(at, Symbol::Colon)?;
    let name = source.expect(at, Symbol::Name)?;
    Ok(Label { colon, name })
}

/// `[ ":" NAME ]`
pub fn label_if(
    source: &Source<'_>,
    at: &mut usize,
    depth: u32,
) -> Result<Option<Label>, ParseFault>
    requires deep { depth ≤ 128 }
    requires within { at.old ≤ length source.now.tokens }
    ensures reads { IfOk result (λ x. Parsed source.now depth at.old at.new (maybe words.label x)) }
    ensures fault { IfErr result (λ f. IsWithin source.now f) }
{
    if !source.sees(*at, Symbol::Colon) {
        return Ok(None);
    }
    let label = label(source, at, depth)?;
    Ok(Some(label))
}

/// `NAME "=" expr`
pub fn setting(source: &Source<'_>, at: &mut usize, depth: u32) -> Result<Setting, ParseFault>
    requires deep { depth ≤ 128 }
    requires within { at.old ≤ length source.now.tokens }
    ensures reads { IfOk result (λ x. Parsed source.now depth at.old at.new (words.setting x)) }
    ensures fault { IfErr result (λ f. IsWithin source.now f) }
{
    let name = source.expect(at, Symbol::Name)?;
    let mark = source.expect(at, Symbol::Assign)?;
    let value = expr(source, at, depth)?;
    Ok(Setting { name, mark, value })
}

/// `"=" expr`
pub fn initial(source: &Source<'_>, at: &mut usize, depth: u32) -> Result<Initial, ParseFault>
    requires deep { depth ≤ 128 }
    requires within { at.old ≤ length source.now.tokens }
    ensures reads { IfOk result (λ x. Parsed source.now depth at.old at.new (item.initial x)) }
    ensures fault { IfErr result (λ f. IsWithin source.now f) }
{
    let mark = source.expect(at, Symbol::Assign)?;
    let value = expr(source, at, depth)?;
    Ok(Initial { mark, value })
}

/// `[ "=" expr ]`
pub fn initial_if(
    source: &Source<'_>,
    at: &mut usize,
    depth: u32,
) -> Result<Option<Initial>, ParseFault>
    requires deep { depth ≤ 128 }
    requires within { at.old ≤ length source.now.tokens }
    ensures reads { IfOk result (λ x. Parsed source.now depth at.old at.new (maybe item.initial x)) }
    ensures fault { IfErr result (λ f. IsWithin source.now f) }
{
    if !source.sees(*at, Symbol::Assign) {
        return Ok(None);
    }
    let initial = initial(source, at, depth)?;
    Ok(Some(initial))
}

/// `"[" expr [ ":" expr ] "]"`
pub fn dimension(source: &Source<'_>, at: &mut usize, depth: u32) -> Result<Dimension, ParseFault>
    requires deep { depth ≤ 128 }
    requires within { at.old ≤ length source.now.tokens }
    ensures reads { IfOk result (λ x. Parsed source.now depth at.old at.new (item.dimension x)) }
    ensures fault { IfErr result (λ f. IsWithin source.now f) }
{
    let opening = enter(source, at, depth, Symbol::BracketOpen)?;
    let left = expr(source, at, depth + 1)?;
    let Some(colon) = source.take_if(at, Symbol::Colon) else {
        let close = source.expect(at, Symbol::BracketClose)?;
        return Ok(Dimension::Count {
            open: opening,
            count: left,
            close,
        });
    };
    let right = expr(source, at, depth + 1)?;
    let close = source.expect(at, Symbol::BracketClose)?;
    Ok(Dimension::Bounds(Range {
        open: opening,
        left,
        colon,
        right,
        close,
    }))
}

/// `[ "[" expr [ ":" expr ] "]" ]`
pub fn dimension_if(
    source: &Source<'_>,
    at: &mut usize,
    depth: u32,
) -> Result<Option<Dimension>, ParseFault>
    requires deep { depth ≤ 128 }
    requires within { at.old ≤ length source.now.tokens }
    ensures reads { IfOk result (λ x. Parsed source.now depth at.old at.new (maybe item.dimension x)) }
    ensures fault { IfErr result (λ f. IsWithin source.now f) }
{
    if !source.sees(*at, Symbol::BracketOpen) {
        return Ok(None);
    }
    let dimension = dimension(source, at, depth)?;
    Ok(Some(dimension))
}
