//! Items that declare or assign: parameters, variables, genvars and continuous assignments
//! (IEEE 1800-2017 A.2.1, A.2.4, A.6.1).

ghost use Rattle.std.specs.Prelude.{◌≡◌, ◌≤◌, length, IfOk, IfErr};
ghost use Rattle.sv_tree.specs.TreeItem as tree;
ghost use Rattle.sv_tree.specs.TreeRead.{token};
ghost use Rattle.sv_tree.specs.TreeWords as words;
ghost use Rattle.parse_expr.specs.Parsed.{Parsed, IsWithin};
ghost use Rattle.parse_stmt.specs.Body.{ParsedBody};
ghost use Rattle.parse_item.specs.Lists.{ListMakes};
ghost use Rattle.sv_tree.specs.declared.token.Token.{Token};
ghost use Rattle.sv_tree.specs.declared.tree.item.Item.{Item};
ghost use Rattle.sv_tree.specs.declared.tree.list.CommaList.{CommaList};
ghost use Rattle.sv_tree.specs.declared.tree.words.DataType.{DataType};

use crate::class::is_parameter;
use crate::lists::{Part, comma_list};
use parse_expr::{
    ParseFault, Source, data_type_if, dimension_if, expr, initial_if, lvalue, setting, syntax,
    variable_type,
};
use sv_tree::{Assignment, CommaList, DataType, Declaration, Item, Setting, Symbol, Token};

/// `( "parameter" | "localparam" ) [ type ] NAME "=" expr { "," NAME "=" expr } ";"`
pub fn parameters(source: &Source<'_>, at: &mut usize, depth: u32) -> Result<Item, ParseFault>
    requires deep { depth ≤ 128 }
    requires within { at.old ≤ length source.now.tokens }
    ensures reads { IfOk result (λ x. ParsedBody source.now depth at.old at.new (tree.item_read x)) }
    ensures fault { IfErr result (λ f. IsWithin source.now f) }
{
    if !is_parameter(source.peek(*at)) {
        return Err(syntax(*at));
    }
    let word = source.take(at)?;
    let kind = data_type_if(source, at, depth)?;
    let settings = comma_list::<Setting>(source, at, depth)?;
    let semicolon = source.expect(at, Symbol::Semicolon)?;
    Ok(Item::Parameters {
        word,
        kind,
        settings,
        semicolon,
    })
}

/// `( vec [ sign ] [ range ] | fixed [ sign ] ) declr { "," declr } ";"`
pub fn variables(source: &Source<'_>, at: &mut usize, depth: u32) -> Result<Item, ParseFault>
    requires deep { depth ≤ 128 }
    requires within { at.old ≤ length source.now.tokens }
    ensures reads { IfOk result (λ x. ParsedBody source.now depth at.old at.new (tree.item_read x)) }
    ensures fault { IfErr result (λ f. IsWithin source.now f) }
{
    let kind = variable_type(source, at, depth)?;
    declared_item::<DataType, Declaration>(source, at, depth, kind)
}

/// A part of which a list is declared to be of a kind. What reads the list sees neither the kind
/// nor the parts, so the many forms of both are looked at only where the item is made.
trait Declared<K>: Part {
    ghost made: { K → CommaList Self → Token → Item };

    /// The item of a list.
    fn item(kind: K, list: CommaList<Self>, semicolon: Token) -> Item
        ensures { result ≡ made kind list semicolon };
}

impl Declared<DataType> for Declaration {
    ghost made = { λ kind list semicolon. Item.Variables kind list semicolon };

    fn item(kind: DataType, list: CommaList<Declaration>, semicolon: Token) -> Item
        ensures { result ≡ Item.Variables kind list semicolon }
    {
        Item::Variables {
            kind,
            declarations: list,
            semicolon,
        }
    }
}

/// A list and its `;`, after the kind.
fn declared_item<K: Drop, T: Declared<K>>(
    source: &Source<'_>,
    at: &mut usize,
    depth: u32,
    kind: K,
) -> Result<Item, ParseFault>
    requires deep { depth ≤ 128 }
    requires within { at.old ≤ length source.now.tokens }
    ensures made { IfOk result (λ x. ListMakes source.now depth at.old at.new T.reads (T.made kind) x) }
    ensures fault { IfErr result (λ f. IsWithin source.now f) }
{
    let list = comma_list::<T>(source, at, depth)?;
    let semicolon = source.expect(at, Symbol::Semicolon)?;
    Ok(T::item(kind, list, semicolon))
}

/// `"assign" lvalue "=" expr { "," lvalue "=" expr } ";"`
pub fn assigns(source: &Source<'_>, at: &mut usize, depth: u32) -> Result<Item, ParseFault>
    requires deep { depth ≤ 128 }
    requires within { at.old ≤ length source.now.tokens }
    ensures reads { IfOk result (λ x. ParsedBody source.now depth at.old at.new (tree.item_read x)) }
    ensures fault { IfErr result (λ f. IsWithin source.now f) }
{
    let word = source.expect(at, Symbol::AssignWord)?;
    let assignments = comma_list::<Assignment>(source, at, depth)?;
    let semicolon = source.expect(at, Symbol::Semicolon)?;
    Ok(Item::Assigns {
        word,
        assignments,
        semicolon,
    })
}

/// `"genvar" NAME { "," NAME } ";"`
pub fn genvars(source: &Source<'_>, at: &mut usize, depth: u32) -> Result<Item, ParseFault>
    requires deep { depth ≤ 128 }
    requires within { at.old ≤ length source.now.tokens }
    ensures reads { IfOk result (λ x. ParsedBody source.now depth at.old at.new (tree.item_read x)) }
    ensures fault { IfErr result (λ f. IsWithin source.now f) }
{
    let word = source.expect(at, Symbol::Genvar)?;
    let names = comma_list::<Token>(source, at, depth)?;
    let semicolon = source.expect(at, Symbol::Semicolon)?;
    Ok(Item::Genvars {
        word,
        names,
        semicolon,
    })
}

impl Part for Setting {
    ghost reads = { words.setting };

    fn part(source: &Source<'_>, at: &mut usize, depth: u32) -> Result<Setting, ParseFault> {
        setting(source, at, depth)
    }
}

impl Part for Token {
    ghost use Rattle.sv_tree.specs.declared.symbol.Symbol.TheVariants as symbol;

    ghost reads = { token symbol.Name };

    fn part(source: &Source<'_>, at: &mut usize, _depth: u32) -> Result<Token, ParseFault> {
        source.expect(at, Symbol::Name)
    }
}

impl Part for Declaration {
    ghost reads = { tree.declaration };

    fn part(source: &Source<'_>, at: &mut usize, depth: u32) -> Result<Declaration, ParseFault> {
        let name = source.expect(at, Symbol::Name)?;
        let dimension = dimension_if(source, at, depth)?;
        let value = initial_if(source, at, depth)?;
        Ok(Declaration {
            name,
            dimension,
            value,
        })
    }
}

impl Part for Assignment {
    ghost reads = { tree.assignment };

    fn part(source: &Source<'_>, at: &mut usize, depth: u32) -> Result<Assignment, ParseFault> {
        let target = lvalue(source, at, depth)?;
        let mark = source.expect(at, Symbol::Assign)?;
        let value = expr(source, at, depth)?;
        Ok(Assignment {
            target,
            mark,
            value,
        })
    }
}
