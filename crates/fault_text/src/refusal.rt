// The refusal by each fault, in the order of docs/FORMATS.md.
ghost use Rattle.std.specs.Prelude.{◌≡◌, ◌++◌};
ghost use Rattle.run_status.specs.Answer.{Refuses, EndsBy};
ghost use Rattle.fault_text.specs.FaultText as text;
ghost use Rattle.fault_text.specs.Endings.{reading_end, lexing_end, preprocessing_end, parsing_end, design_end, stimulus_end};

use itoa::Buffer;
use parse_expr::ParseFault;
use run_status::{
    Status, cannot_read, file_name, out_of_memory, refuse, refuse_about, refuse_at, refuse_listed,
};
use stimulus::StimFault;
use sv_lex::LexFault;
use sv_names::DesignFault;
use sv_pp::{PpFault, without_backquote};
use sv_tree::{NameId, Names, Token};
use vs_base::{Kind, Origin, Text};
use vs_world::{ReadFault, World};

const MANY_TOKENS: &[u8] = b"too many tokens";

/// Refuses words that are no command.
pub fn refuse_words<W: World>(world: &mut W) -> Status
    ensures told { Refuses result text.usage (W.told world.old) (W.told world.new) }
{
    refuse(world, b"usage", b"")
}

/// Ends by a file that was not read: it is too long, reading failed or it is not there, or memory ran out.
pub fn refuse_reading<W: World>(world: &mut W, name: &[u8], fault: ReadFault) -> Status
    ensures told { EndsBy result (reading_end name.now fault) (W.told world.old) (W.told world.new) }
{
    match fault {
        ReadFault::World => cannot_read(world, name),
        ReadFault::TooLong => refuse(world, name, b": longer than 4194304 bytes"),
        ReadFault::NoMemory => out_of_memory(world),
    }
}

// Refuses by a text about a place.
fn refuse_place<W: World>(
    world: &mut W,
    files: &[Text],
    at: Origin,
    start: &[u8],
    end: &[u8],
) -> Status
    ensures told { Refuses result (text.at_place files.now at (start.now ++ end.now)) (W.told world.old) (W.told world.new) }
{
    refuse_at(world, file_name(files, at.file as usize), at, start, end)
}

/// Refuses by a fault of lexing.
pub fn refuse_lexing<W: World>(world: &mut W, files: &[Text], fault: LexFault) -> Status
    ensures told { EndsBy result (lexing_end files.now fault) (W.told world.old) (W.told world.new) }
{
    match fault {
        LexFault::BadChar(at) => refuse_place(world, files, at, b"bad character", b""),
        LexFault::OpenComment(at) => refuse_place(world, files, at, b"open comment", b""),
        LexFault::OpenString(at) => refuse_place(world, files, at, b"open string", b""),
        LexFault::TooMany => refuse(world, MANY_TOKENS, b""),
        LexFault::NoMemory => out_of_memory(world),
    }
}

// Refuses by a text with a directive's name.
fn refuse_directive<W: World>(
    world: &mut W,
    files: &[Text],
    at: Origin,
    start: &[u8],
    names: &Names,
    name: NameId,
) -> Status
    ensures told { Refuses result (text.at_place files.now at (start.now ++ text.unquoted names.now name.0)) (W.told world.old) (W.told world.new) }
{
    refuse_place(
        world,
        files,
        at,
        start,
        without_backquote(names.text_of(name)),
    )
}

/// Refuses by a fault of preprocessing.
pub fn refuse_preprocessing<W: World>(
    world: &mut W,
    files: &[Text],
    names: &Names,
    fault: PpFault,
) -> Status
    ensures told { EndsBy result (preprocessing_end files.now names.now fault) (W.told world.old) (W.told world.new) }
{
    match fault {
        PpFault::UnknownMacro(at, name) => {
            refuse_directive(world, files, at, b"unknown macro ", names, name)
        }
        PpFault::MacroDepth(at) => refuse_place(world, files, at, b"macros too deep", b""),
        PpFault::OpenIf(at) => refuse_place(world, files, at, b"open ifdef", b""),
        PpFault::StrayElse(at) => refuse_place(world, files, at, b"stray else", b""),
        PpFault::Directive(at, name) => {
            refuse_directive(world, files, at, b"directive ", names, name)
        }
        PpFault::TooMany => refuse(world, MANY_TOKENS, b""),
        PpFault::NoMemory => out_of_memory(world),
    }
}

/// Refuses a number whose spelling is none, at its place.
pub fn refuse_number<W: World>(world: &mut W, files: &[Text], at: Origin) -> Status
    ensures told { Refuses result (text.bad_number files.now at) (W.told world.old) (W.told world.new) }
{
    refuse_place(world, files, at, b"bad number", b"")
}

// Refuses by a text about a token, or about the end where there is no such token.
fn refuse_token<W: World>(
    world: &mut W,
    files: &[Text],
    token: Option<Token>,
    start: &[u8],
    end: &[u8],
    past: &[u8],
) -> Status
    ensures told { Refuses result (text.of_token files.now token (start.now ++ end.now) past.now) (W.told world.old) (W.told world.new) }
{
    match token {
        Some(token) => refuse_place(world, files, token.at, start, end),
        None => refuse(world, past, b""),
    }
}

// The spelling of a token, empty where there is none.
fn spelling_of<'a>(names: &'a Names, token: Option<Token>) -> &'a [u8]
    ensures { result.now ≡ text.spelled names.now token }
{
    match token {
        Some(token) => names.text_of(token.name),
        None => &[],
    }
}

/// Refuses by a fault of parsing. `token` is the one that has the number which the fault tells, where there is one.
pub fn refuse_parsing<W: World>(
    world: &mut W,
    files: &[Text],
    names: &Names,
    token: Option<Token>,
    fault: ParseFault,
) -> Status
    ensures told { EndsBy result (parsing_end files.now names.now token fault) (W.told world.old) (W.told world.new) }
{
    match fault {
        ParseFault::Construct(_) => {
            let spelling = spelling_of(names, token);
            refuse_token(world, files, token, b"not in this subset: ", spelling, b"")
        }
        ParseFault::Syntax(_) => {
            let end = b"syntax error at end of input";
            refuse_token(world, files, token, b"syntax error", b"", end)
        }
        ParseFault::TooDeep(_) => {
            let end = b"nested too deep";
            refuse_token(world, files, token, b"nested too deep", b"", end)
        }
        ParseFault::NoMemory => out_of_memory(world),
    }
}

// What there may be too many of.
fn kind_text(kind: Kind) -> &'static [u8]
    ensures { result.now ≡ text.kind_text kind }
{
    match kind {
        Kind::Tokens => b"tokens",
        Kind::Instances => b"instances",
        Kind::Processes => b"processes",
        Kind::Terms => b"terms",
        Kind::Calls => b"calls",
        Kind::Words => b"words",
        Kind::Nodes => b"nodes",
        Kind::Edges => b"edges",
    }
}

/// Refuses a design that has more of something than it may have.
pub fn refuse_too_many<W: World>(world: &mut W, kind: Kind) -> Status
    ensures told { Refuses result (text.too_many kind) (W.told world.old) (W.told world.new) }
{
    refuse(world, b"too many ", kind_text(kind))
}

/// Refuses by a fault of the design.
pub fn refuse_design<W: World>(
    world: &mut W,
    files: &[Text],
    names: &Names,
    fault: DesignFault,
) -> Status
    ensures told { EndsBy result (design_end files.now names.now fault) (W.told world.old) (W.told world.new) }
{
    match fault {
        DesignFault::NoTop => refuse(world, b"no top module", b""),
        DesignFault::ManyTops => refuse(world, b"many top modules", b""),
        DesignFault::Duplicate(at, name) => {
            refuse_place(world, files, at, b"duplicate ", names.text_of(name))
        }
        DesignFault::UnknownModule(at, name) => {
            refuse_place(world, files, at, b"unknown module ", names.text_of(name))
        }
        DesignFault::SelfInstance(at) => refuse_place(world, files, at, b"instance of itself", b""),
        DesignFault::UnknownPort(at) => refuse_place(world, files, at, b"unknown port", b""),
        DesignFault::UnknownParam(at) => refuse_place(world, files, at, b"unknown parameter", b""),
        DesignFault::UnknownName(at, name) => {
            refuse_place(world, files, at, b"unknown name ", names.text_of(name))
        }
        DesignFault::WrongUse(at, name) => {
            refuse_place(world, files, at, b"wrong use of ", names.text_of(name))
        }
        DesignFault::WrongAssign(at) => refuse_place(world, files, at, b"wrong assignment", b""),
        DesignFault::NotConstant(at) => refuse_place(world, files, at, b"not constant", b""),
        DesignFault::BadImport(at) => refuse_place(world, files, at, b"bad import", b""),
        DesignFault::TooWide(at) => refuse_place(world, files, at, b"too wide", b""),
        DesignFault::BadRange(at) => refuse_place(world, files, at, b"bad range", b""),
        DesignFault::BadEvent(at, name) => {
            refuse_place(world, files, at, b"bad event ", names.text_of(name))
        }
        DesignFault::LoopTurns(at) => refuse_place(world, files, at, b"too many loop turns", b""),
        DesignFault::TooMany(kind) => refuse_too_many(world, kind),
        DesignFault::NoMemory => out_of_memory(world),
    }
}

/// Refuses a bit that two processes write: its name, and the places of the first two.
pub fn refuse_drivers<W: World>(
    world: &mut W,
    files: &[Text],
    bit: &[u8],
    one: Origin,
    two: Origin,
) -> Status
    ensures told { Refuses result (text.two_drivers files.now bit.now one two) (W.told world.old) (W.told world.new) }
{
    refuse_listed(world, files, b"two drivers of ", bit, &[one, two])
}

/// Refuses an import of a name that the host does not have.
pub fn refuse_unknown_import<W: World>(world: &mut W, name: &[u8]) -> Status
    ensures told { Refuses result (text.unknown_import name.now) (W.told world.old) (W.told world.new) }
{
    refuse_about(world, b"import ", name, b" is unknown")
}

/// Refuses an import that is deemed safe and whose answers are not by its arguments alone.
pub fn refuse_not_by_arguments<W: World>(world: &mut W, name: &[u8]) -> Status
    ensures told { Refuses result (text.not_by_arguments name.now) (W.told world.old) (W.told world.new) }
{
    refuse_about(
        world,
        b"import ",
        name,
        b" does not answer by arguments alone",
    )
}

/// Refuses processes that wait for each other: their places.
pub fn refuse_loop<W: World>(world: &mut W, files: &[Text], places: &[Origin]) -> Status
    ensures told { Refuses result (text.loop_text files.now places.now) (W.told world.old) (W.told world.new) }
{
    let mut digits = Buffer::new();
    let count = digits.format(places.len()).as_bytes();
    refuse_listed(world, files, b"loop of ", count, places)
}

// Refuses by a text about a line of the stimulus.
fn refuse_line<W: World>(world: &mut W, line: u32, end: &[u8]) -> Status
    ensures told { Refuses result (text.of_line line end.now) (W.told world.old) (W.told world.new) }
{
    let mut digits = Buffer::new();
    let line = digits.format(line).as_bytes();
    refuse_about(world, b"stimulus line ", line, end)
}

/// Refuses by a fault of the stimulus.
pub fn refuse_stimulus<W: World>(world: &mut W, fault: StimFault) -> Status
    ensures told { EndsBy result (stimulus_end fault) (W.told world.old) (W.told world.new) }
{
    match fault {
        StimFault::BadLine(line) => refuse_line(world, line, b": bad line"),
        StimFault::UnknownInput(line) => refuse_line(world, line, b": unknown input"),
        StimFault::ValueTooWide(line) => refuse_line(world, line, b": value too wide"),
        StimFault::TooManyEvals(line) => refuse_line(world, line, b": too many evals"),
        StimFault::NoMemory => out_of_memory(world),
    }
}

/// Refuses a run at the eval of this number, from 0, which does not converge.
pub fn refuse_eval<W: World>(world: &mut W, eval: u64) -> Status
    ensures told { Refuses result (text.not_converged eval) (W.told world.old) (W.told world.new) }
{
    let mut digits = Buffer::new();
    let eval = digits.format(eval).as_bytes();
    refuse_about(world, b"eval ", eval, b": not converged")
}
