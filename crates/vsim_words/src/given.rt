// What stands on the command line, by the matches of `clap`.
ghost use Rattle.std.specs.Prelude.{◌≡◌, [], map, codes};
ghost use Rattle.std.specs.Option.{option_map, option_map_or};
ghost use Rattle.clap.specs.Words.{first_of, found_of, rows_of};
ghost use Rattle.vsim_words.specs.Given.{files_in, given_in, is_set};
ghost use Rattle.vsim_words.specs.Views.{given_by};

use clap::ArgMatches;

/// The names of the files and the value of each option, as they stand.
#[derive(Clone, Copy)]
pub struct Given<'m, 'a> {
    pub files: Option<&'m [&'a str]>,
    pub lint_only: bool,
    pub stim: Option<&'a str>,
    pub top_module: Option<&'a str>,
    pub threads: Option<&'a str>,
    pub threads_dpi: Option<&'a str>,
    pub calls: Option<&'a str>,
    pub vcd: Option<&'a str>,
}

// The value of an option.
fn value<'a>(matches: &ArgMatches<'a>, name: &str) -> Option<&'a str>
    ensures { option_map (λ s. s.now) result ≡ first_of name.now (rows_of (found_of matches.now)) }
{
    matches.get_str(name)
}

// Whether a flag stands.
fn is_set(matches: &ArgMatches<'_>, name: &str) -> bool
    ensures { result ≡ is_set (rows_of (found_of matches.now)) name.now }
{
    match value(matches, name) {
        Some(value) => value == "true",
        None => false,
    }
}

// The names of the files.
fn files<'m, 'a>(matches: &'m ArgMatches<'a>) -> Option<&'m [&'a str]>
    ensures { option_map_or (λ s. map (λ t. t.now) s.now) result [] ≡ files_in (rows_of (found_of matches.entry.now)) }
{
    matches.get_strs("FILES")
}

impl<'m, 'a> Given<'m, 'a> {
    /// What stands on the command line of these matches.
    pub fn of(matches: &'m ArgMatches<'a>) -> Given<'m, 'a>
        ensures { given_by result ≡ given_in (rows_of (found_of matches.entry.now)) }
    {
        Given {
            files: files(matches),
            lint_only: is_set(matches, "lint-only"),
            stim: value(matches, "stim"),
            top_module: value(matches, "top-module"),
            threads: value(matches, "threads"),
            threads_dpi: value(matches, "threads-dpi"),
            calls: value(matches, "calls"),
            vcd: value(matches, "vcd"),
        }
    }
}
