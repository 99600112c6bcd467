ghost use Rattle.std.specs.Prelude.{◌≡◌, ◌<◌, length, map};
ghost use Rattle.sv_tree.specs.Spelling as spelling;

use crate::names::Names;
use crate::token::{Token, TokenKind};

/// What a token is to the grammar: a kind whose spelling is free, or one spelling of a reserved
/// word or a mark.
#[derive(Clone, Copy, Debug, PartialEq, Eq)]
pub enum Symbol {
    /// A name.
    Name,
    /// A decimal number.
    Decimal,
    /// A base and its digits.
    Based,
    /// `'0` or `'1`.
    Fill,
    /// A string.
    Text,
    /// The name of a system function.
    System,
    /// `module`
    Module,
    /// `endmodule`
    Endmodule,
    /// `parameter`
    Parameter,
    /// `localparam`
    Localparam,
    /// `input`
    Input,
    /// `output`
    Output,
    /// `logic`
    Logic,
    /// `bit`
    Bit,
    /// `reg`
    Reg,
    /// `wire`
    Wire,
    /// `byte`
    Byte,
    /// `shortint`
    Shortint,
    /// `int`
    Int,
    /// `longint`
    Longint,
    /// `integer`
    Integer,
    /// `signed`
    Signed,
    /// `unsigned`
    Unsigned,
    /// `import`
    Import,
    /// `pure`
    Pure,
    /// `context`
    Context,
    /// `function`
    Function,
    /// `void`
    Void,
    /// `assign`
    AssignWord,
    /// `always_comb`
    AlwaysComb,
    /// `always_ff`
    AlwaysFf,
    /// `always`
    Always,
    /// `or`
    Or,
    /// `posedge`
    Posedge,
    /// `negedge`
    Negedge,
    /// `genvar`
    Genvar,
    /// `generate`
    Generate,
    /// `endgenerate`
    Endgenerate,
    /// `for`
    For,
    /// `if`
    If,
    /// `else`
    Else,
    /// `begin`
    Begin,
    /// `end`
    End,
    /// `case`
    Case,
    /// `endcase`
    Endcase,
    /// `default`
    Default,
    /// `(`
    ParenOpen,
    /// `)`
    ParenClose,
    /// `[`
    BracketOpen,
    /// `]`
    BracketClose,
    /// `{`
    BraceOpen,
    /// `}`
    BraceClose,
    /// `;`
    Semicolon,
    /// `:`
    Colon,
    /// `,`
    Comma,
    /// `.`
    Dot,
    /// `#`
    Hash,
    /// `@`
    At,
    /// `=`
    Assign,
    /// `?`
    Question,
    /// `+`
    Plus,
    /// `-`
    Minus,
    /// `*`
    Star,
    /// `/`
    Slash,
    /// `%`
    Percent,
    /// `<`
    Less,
    /// `>`
    Greater,
    /// `!`
    Bang,
    /// `~`
    Tilde,
    /// `&`
    Amp,
    /// `|`
    Pipe,
    /// `^`
    Caret,
    /// `<=`
    LessEqual,
    /// `>=`
    GreaterEqual,
    /// `==`
    EqualEqual,
    /// `!=`
    BangEqual,
    /// `===`
    CaseEqual,
    /// `!==`
    CaseUnequal,
    /// `&&`
    AmpAmp,
    /// `||`
    PipePipe,
    /// `~&`
    TildeAmp,
    /// `~|`
    TildePipe,
    /// `~^`
    TildeCaret,
    /// `^~`
    CaretTilde,
    /// `<<`
    ShiftLeft,
    /// `>>`
    ShiftRight,
    /// `<<<`
    ArithLeft,
    /// `>>>`
    ArithRight,
    /// `++`
    PlusPlus,
    /// `--`
    MinusMinus,
    /// `+=`
    PlusAssign,
    /// `-=`
    MinusAssign,
    /// `+:`
    PlusColon,
    /// `-:`
    MinusColon,
    /// Anything else: no place of the grammar asks for it.
    Other,
}

/// The reserved words of the grammar (IEEE 1800-2017 Annex B).
const WORDS: [(&[u8], Symbol); 40] = [
    (b"module", Symbol::Module),
    (b"endmodule", Symbol::Endmodule),
    (b"parameter", Symbol::Parameter),
    (b"localparam", Symbol::Localparam),
    (b"input", Symbol::Input),
    (b"output", Symbol::Output),
    (b"logic", Symbol::Logic),
    (b"bit", Symbol::Bit),
    (b"reg", Symbol::Reg),
    (b"wire", Symbol::Wire),
    (b"byte", Symbol::Byte),
    (b"shortint", Symbol::Shortint),
    (b"int", Symbol::Int),
    (b"longint", Symbol::Longint),
    (b"integer", Symbol::Integer),
    (b"signed", Symbol::Signed),
    (b"unsigned", Symbol::Unsigned),
    (b"import", Symbol::Import),
    (b"pure", Symbol::Pure),
    (b"context", Symbol::Context),
    (b"function", Symbol::Function),
    (b"void", Symbol::Void),
    (b"assign", Symbol::AssignWord),
    (b"always_comb", Symbol::AlwaysComb),
    (b"always_ff", Symbol::AlwaysFf),
    (b"always", Symbol::Always),
    (b"or", Symbol::Or),
    (b"posedge", Symbol::Posedge),
    (b"negedge", Symbol::Negedge),
    (b"genvar", Symbol::Genvar),
    (b"generate", Symbol::Generate),
    (b"endgenerate", Symbol::Endgenerate),
    (b"for", Symbol::For),
    (b"if", Symbol::If),
    (b"else", Symbol::Else),
    (b"begin", Symbol::Begin),
    (b"end", Symbol::End),
    (b"case", Symbol::Case),
    (b"endcase", Symbol::Endcase),
    (b"default", Symbol::Default),
];

/// The marks of the grammar (IEEE 1800-2017 11.3, Annex A).
const MARKS: [(&[u8], Symbol); 48] = [
    (b"(", Symbol::ParenOpen),
    (b")", Symbol::ParenClose),
    (b"[", Symbol::BracketOpen),
    (b"]", Symbol::BracketClose),
    (b"{", Symbol::BraceOpen),
    (b"}", Symbol::BraceClose),
    (b";", Symbol::Semicolon),
    (b":", Symbol::Colon),
    (b",", Symbol::Comma),
    (b".", Symbol::Dot),
    (b"#", Symbol::Hash),
    (b"@", Symbol::At),
    (b"=", Symbol::Assign),
    (b"?", Symbol::Question),
    (b"+", Symbol::Plus),
    (b"-", Symbol::Minus),
    (b"*", Symbol::Star),
    (b"/", Symbol::Slash),
    (b"%", Symbol::Percent),
    (b"<", Symbol::Less),
    (b">", Symbol::Greater),
    (b"!", Symbol::Bang),
    (b"~", Symbol::Tilde),
    (b"&", Symbol::Amp),
    (b"|", Symbol::Pipe),
    (b"^", Symbol::Caret),
    (b"<=", Symbol::LessEqual),
    (b">=", Symbol::GreaterEqual),
    (b"==", Symbol::EqualEqual),
    (b"!=", Symbol::BangEqual),
    (b"===", Symbol::CaseEqual),
    (b"!==", Symbol::CaseUnequal),
    (b"&&", Symbol::AmpAmp),
    (b"||", Symbol::PipePipe),
    (b"~&", Symbol::TildeAmp),
    (b"~|", Symbol::TildePipe),
    (b"~^", Symbol::TildeCaret),
    (b"^~", Symbol::CaretTilde),
    (b"<<", Symbol::ShiftLeft),
    (b">>", Symbol::ShiftRight),
    (b"<<<", Symbol::ArithLeft),
    (b">>>", Symbol::ArithRight),
    (b"++", Symbol::PlusPlus),
    (b"--", Symbol::MinusMinus),
    (b"+=", Symbol::PlusAssign),
    (b"-=", Symbol::MinusAssign),
    (b"+:", Symbol::PlusColon),
    (b"-:", Symbol::MinusColon),
];

/// What a token is to the grammar. The number of its name is one of the table.
pub fn symbol_of(names: &Names, token: Token) -> Symbol
    requires { token.name.0 < length names.now }
    ensures { result ≡ spelling.symbol_of names.now token }
{
    match token.kind {
        TokenKind::Name => Symbol::Name,
        TokenKind::Word => word(names.text(token.name)),
        TokenKind::Decimal => Symbol::Decimal,
        TokenKind::Based => Symbol::Based,
        TokenKind::Fill => Symbol::Fill,
        TokenKind::Text => Symbol::Text,
        TokenKind::System => Symbol::System,
        TokenKind::Directive => Symbol::Other,
        TokenKind::Mark => mark(names.text(token.name)),
    }
}

#[tactic(auto, unfolding(crate::specs::Spelling::words))]
fn word(text: &[u8]) -> Symbol
    ensures { result ≡ spelling.found spelling.words text.now }
{
    found(&WORDS, text)
}

#[tactic(auto, unfolding(crate::specs::Spelling::marks))]
fn mark(text: &[u8]) -> Symbol
    ensures { result ≡ spelling.found spelling.marks text.now }
{
    found(&MARKS, text)
}

/// What a table has for a text.
fn found(mut table: &[(&[u8], Symbol)], text: &[u8]) -> Symbol
    ensures { result ≡ spelling.found (map (λ x. (x.0.now, x.1)) table.entry.now) text.now }
{
    while let [(spelled, symbol), more @ ..] = table {
        if *spelled == text {
            return *symbol;
        }
        table = more;
    }
    Symbol::Other
}
