use dpi_host::Mode;
use vs_base::Text;

/// What the program is to do with the design.
#[derive(Debug, Drop)]
pub enum Action {
    /// `--lint-only`: checks it and writes nothing.
    Lint,
    /// `--stim FILE`: runs it on the stimulus in the file of this name.
    Stim(Text),
}

/// The settings of a run, with the defaults filled in. No name in them is empty or `-`.
#[derive(Debug, Drop)]
pub struct Options {
    /// The names of the design files in the order of the words, 1 to 64.
    pub files: Vec<Text>,
    /// What to do.
    pub action: Action,
    /// `--top-module NAME`: the module at the top.
    pub top_module: Option<Text>,
    /// `--threads N`: how many threads run the design. So far 1.
    pub threads: u32,
    /// `--threads-dpi MODE`: which imports are taken as safe to call from several threads.
    pub threads_dpi: Mode,
    /// `--calls FILE`: the file into which the calls of imports are written. Only beside a stimulus.
    pub calls: Option<Text>,
    /// `--vcd FILE`: the file into which the waveform is written. Only beside a stimulus, and not the file of the calls.
    pub vcd: Option<Text>,
}
