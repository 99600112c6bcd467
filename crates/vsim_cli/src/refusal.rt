// Why a command ends before all is done, and the line that tells it.
ghost use Rattle.std.specs.Prelude.{◌≡◌, length};
ghost use Rattle.run_status.specs.Answer.{Failing, EndsBy};
ghost use Rattle.sim_session.specs.Runs.{creations};
ghost use Rattle.vsim_cli.specs.Case.{command_by};
ghost use Rattle.vsim_cli.specs.Refusals as spec;

use crate::command::{Command, NO_NAME, Source, name_or_none, source_name};
use fault_text::{
    refuse_design, refuse_drivers, refuse_eval, refuse_lexing, refuse_loop,
    refuse_not_by_arguments, refuse_number, refuse_parsing, refuse_preprocessing, refuse_reading,
    refuse_stimulus, refuse_too_many, refuse_unknown_import,
};
use model_build::BuildFault;
use parse_expr::ParseFault;
use run_status::{Status, cannot_create, cannot_write, out_of_memory};
use sim_session::{SessionFault, Texts};
use stimulus::StimFault;
use sv_lex::LexFault;
use sv_names::DesignFault;
use sv_pp::PpFault;
use sv_tree::{Names, Token};
use vs_base::{Origin, Text};
use vs_world::{ReadFault, Stream, World};

/// Why a command ends before all is done, by its stages.
#[derive(Drop)]
pub enum Refusal {
    /// There was no memory left.
    NoMemory,
    /// A file was not read.
    Reading(Source, ReadFault),
    /// The bytes of a file are not cut into tokens.
    Lexing(LexFault),
    /// The tokens of the files have no active tokens.
    Preprocessing(PpFault),
    /// The spelling of a number, at this place, is none.
    Number(Origin),
    /// The active tokens have no tree. The token is the one that the fault tells by its number, where there is one.
    Parsing(ParseFault, Option<Token>),
    /// The design is not laid out.
    Design(DesignFault),
    /// The design has no model.
    Model(BuildFault),
    /// The stimulus has no acts.
    Stimulus(StimFault),
    /// The run ended early.
    Run(SessionFault),
}

// Refuses a design of which no model is built.
fn refuse_model<W: World>(world: &mut W, files: &[Text], fault: BuildFault) -> Status
    ensures told { EndsBy result (spec.model_end files.now fault) (W.told world.old) (W.told world.new) }
{
    match fault {
        BuildFault::NoMemory(_) => out_of_memory(world),
        BuildFault::MultipleDrivers(bit, one, two) => {
            refuse_drivers(world, files, bit.as_bytes(), one, two)
        }
        BuildFault::UnknownImport(name) => refuse_unknown_import(world, name.as_bytes()),
        BuildFault::NotByArguments(name) => refuse_not_by_arguments(world, name.as_bytes()),
        BuildFault::TooMany(kind) => refuse_too_many(world, kind),
        BuildFault::Loop(places) => refuse_loop(world, files, places.as_slice()),
    }
}

// How many files a run creates.
fn created(texts: &Texts) -> u64
    ensures { result ≡ length (creations texts.now) }
{
    match (&texts.calls, &texts.vcd) {
        (None, None) => 0,
        (Some(_), Some(_)) => 2,
        _ => 1,
    }
}

// The name of a stream's file.
fn file_of(texts: &Texts, stream: Stream) -> &[u8]
    ensures { result.now ≡ spec.file_of texts.now stream }
{
    match stream {
        Stream::Calls => name_or_none(&texts.calls),
        Stream::Vcd => name_or_none(&texts.vcd),
        _ => NO_NAME,
    }
}

// Ends a run at the entry after so many, which is on this stream: the files are created first.
fn stop_at<W: World>(world: &mut W, texts: &Texts, stream: Stream, pieces: u64) -> Status
    ensures told { EndsBy result (Failing (spec.stop_text texts.now stream pieces)) (W.told world.old) (W.told world.new) }
{
    if pieces < created(texts) {
        return cannot_create(world, file_of(texts, stream));
    }
    cannot_write(world, stream)
}

// Ends a run that ended early.
fn refuse_run<W: World>(world: &mut W, texts: &Texts, fault: SessionFault) -> Status
    ensures told { EndsBy result (spec.run_end texts.now fault) (W.told world.old) (W.told world.new) }
{
    match fault {
        SessionFault::NoMemory => out_of_memory(world),
        SessionFault::World {
            stream,
            pieces,
            bytes: _,
        } => stop_at(world, texts, stream, pieces),
        SessionFault::NotConverged(eval) => refuse_eval(world, eval),
    }
}

/// Ends a command that is refused, by its one line on standard error: the status says whether the command was refused, the
/// world failed, or memory ran out.
pub fn refuse<W: World>(world: &mut W, command: &Command, names: &Names, refusal: Refusal) -> Status
    ensures told { EndsBy result (spec.ending_of (command_by command.now) names.now refusal) (W.told world.old) (W.told world.new) }
{
    let files = command.files.as_slice();
    match refusal {
        Refusal::NoMemory => out_of_memory(world),
        Refusal::Reading(source, fault) => {
            refuse_reading(world, source_name(command, source), fault)
        }
        Refusal::Lexing(fault) => refuse_lexing(world, files, fault),
        Refusal::Preprocessing(fault) => refuse_preprocessing(world, files, names, fault),
        Refusal::Number(at) => refuse_number(world, files, at),
        Refusal::Parsing(fault, token) => refuse_parsing(world, files, names, token, fault),
        Refusal::Design(fault) => refuse_design(world, files, names, fault),
        Refusal::Model(fault) => refuse_model(world, files, fault),
        Refusal::Stimulus(fault) => refuse_stimulus(world, fault),
        Refusal::Run(fault) => refuse_run(world, &command.texts, fault),
    }
}
