// What a command asks for.
ghost use Rattle.std.specs.Prelude.{◌≡◌, [], get_or};
ghost use Rattle.vsim_words.specs.Views.{settings_by_options};
ghost use Rattle.vsim_cli.specs.Case as spec;

use dpi_host::Mode;
use run_status::file_name;
use sim_session::Texts;
use vs_base::Text;
use vsim_words::{Action, Options};

/// A command: the files of the design, the stimulus where the design is to be run, the module at the top where one is
/// named, which imports are deemed safe, and the files of the texts that a run writes besides standard output.
#[derive(Drop)]
pub struct Command {
    pub files: Vec<Text>,
    pub stim: Option<Text>,
    pub top: Option<Text>,
    pub mode: Mode,
    pub texts: Texts,
}

// The name of the stimulus, where the design is to be run.
fn stim_of(action: Action) -> Option<Text>
    ensures { result ≡ spec.stim_of action }
{
    match action {
        Action::Lint => None,
        Action::Stim(name) => Some(name),
    }
}

/// The command of these options.
pub fn command_of(options: Options) -> Command
    ensures { spec.command_by result ≡ spec.command_of (settings_by_options options) }
{
    let Options {
        files,
        action,
        top_module,
        threads: _,
        threads_dpi,
        calls,
        vcd,
    } = options;
    Command {
        files,
        stim: stim_of(action),
        top: top_module,
        mode: threads_dpi,
        texts: Texts { calls, vcd },
    }
}

/// A file that the words name: one of the design, by its number from 0, or the stimulus.
#[derive(Clone, Copy, Debug, PartialEq, Eq)]
pub enum Source {
    Design(usize),
    Stimulus,
}

/// The name of no file.
pub const NO_NAME: &[u8] = b"";

/// The text of a name, empty where there is none.
pub fn name_or_none(name: &Option<Text>) -> &[u8]
    ensures { result.now ≡ spec.name_or_none name.now }
{
    match name {
        Some(name) => name.as_bytes(),
        None => NO_NAME,
    }
}

/// The name of a file.
pub fn source_name(command: &Command, source: Source) -> &[u8]
    ensures { result.now ≡ spec.source_name (spec.command_by command.now) source }
{
    match source {
        Source::Design(number) => file_name(command.files.as_slice(), number),
        Source::Stimulus => name_or_none(&command.stim),
    }
}
