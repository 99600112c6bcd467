//! The greatest sizes that a run accepts. What is larger is refused by name, never cut off.

/// The length of a design file or a stimulus, in bytes.
pub const FILE_BYTES: u64 = 4_194_304;

/// The number of design files of a command.
pub const DESIGN_FILES: usize = 64;

/// The number of tokens of a file, and of tokens read by preprocessing.
pub const TOKENS: usize = 1_000_000;

/// The depth of a tree: how many constructs stand one in another.
pub const DEPTH: u32 = 128;

/// The depth of macro uses: how many stand one in another.
pub const MACRO_DEPTH: u32 = 64;

/// The width of a type, a number or an expression, in bits.
pub const WIDTH: u32 = 128;

/// The width of a word of the model's table, in bits. What is wider stands in several words.
pub const WORD: u32 = 64;

/// The number of module instances, the top included.
pub const INSTANCES: usize = 4_096;

/// The number of processes of a design.
pub const PROCESSES: usize = 8_192;

/// The number of turns of all loops that elaboration unrolls, generate loops and statement loops together.
pub const LOOP_TURNS: u32 = 65_536;

/// The number of terms that elaboration lays down.
pub const TERMS: usize = 1_000_000;

/// The number of calls of imported functions that elaboration lays down.
pub const CALLS: usize = 1_024;

/// The number of arguments of an imported function.
pub const CALL_ARGUMENTS: usize = 8;

/// The number of words of the model's table, shadow words and word 0 included.
pub const WORDS: usize = 65_536;

/// The number of nodes of one part of the model.
pub const NODES: usize = 4_096;

/// The number of edges of one part of the model.
pub const EDGES: usize = 65_536;

/// The number of threads of a run.
pub const THREADS: u32 = 16;

/// The number of evals of a stimulus.
pub const EVALS: u32 = 1_000_000;

/// What is counted where a design has too many of something.
#[derive(Clone, Copy, Debug, PartialEq, Eq)]
pub enum Kind {
    /// More than [`TOKENS`].
    Tokens,
    /// More than [`INSTANCES`].
    Instances,
    /// More than [`PROCESSES`].
    Processes,
    /// More than [`TERMS`].
    Terms,
    /// More than [`CALLS`].
    Calls,
    /// More than [`WORDS`].
    Words,
    /// More than [`NODES`].
    Nodes,
    /// More than [`EDGES`].
    Edges,
}
