// What is refused of what stands on the command line.
ghost use Rattle.std.specs.Prelude.{◌≡◌, map};
ghost use Rattle.std.specs.List.{list_any};
ghost use Rattle.std.specs.Option.{option_map};
ghost use Rattle.vsim_words.specs.Settings as spec;
ghost use Rattle.vsim_words.specs.Views.{given_by};

use crate::given::Given;
use vs_base::limits::DESIGN_FILES;

// Whether no file or module is named so.
fn is_no_name(text: &str) -> bool
    ensures { result ≡ spec.is_no_name text.now }
{
    text == "" || text == "-"
}

fn has_no_name(value: Option<&str>) -> bool
    ensures { result ≡ spec.has_no_name (option_map (λ s. s.now) value.entry) }
{
    match value {
        Some(text) => is_no_name(text),
        None => false,
    }
}

fn any_no_name(names: &[&str]) -> bool
    ensures { result ≡ list_any spec.is_no_name (map (λ s. s.now) names.now) }
{
    names.iter().any(|name| is_no_name(name))
}

fn misnames_files(given: &Given<'_, '_>) -> bool
    ensures { result ≡ list_any spec.is_no_name (given_by given.now).files }
{
    match given.files {
        Some(names) => any_no_name(names),
        None => false,
    }
}

// Some name is none.
fn misnames(given: &Given<'_, '_>) -> bool
    ensures { result ≡ spec.misnames (given_by given.now) }
{
    misnames_files(given)
        || has_no_name(given.stim)
        || has_no_name(given.top_module)
        || has_no_name(given.calls)
        || has_no_name(given.vcd)
}

// Not exactly one of the actions stands.
fn wants_none_or_both(given: &Given<'_, '_>) -> bool
    ensures { result ≡ spec.wants_none_or_both (given_by given.now) }
{
    given.lint_only == given.stim.is_some()
}

fn has_too_few_or_many_files(given: &Given<'_, '_>) -> bool
    ensures { result ≡ spec.has_too_few_or_many_files (given_by given.now) }
{
    match given.files {
        Some(names) => names.len() < 1 || names.len() > DESIGN_FILES,
        None => true,
    }
}

// Calls or a waveform are wanted of no run.
fn logs_no_run(given: &Given<'_, '_>) -> bool
    ensures { result ≡ spec.logs_no_run (given_by given.now) }
{
    given.stim.is_none() && (given.calls.is_some() || given.vcd.is_some())
}

// Both are to go into one file.
fn logs_into_one_file(given: &Given<'_, '_>) -> bool
    ensures { result ≡ spec.logs_into_one_file (given_by given.now) }
{
    match (given.calls, given.vcd) {
        (Some(calls), Some(vcd)) => calls == vcd,
        _ => false,
    }
}

/// Whether what stands is refused, whatever the numbers and the mode are.
pub fn is_refused(given: &Given<'_, '_>) -> bool
    ensures { result ≡ spec.is_refused (given_by given.now) }
{
    misnames(given)
        || wants_none_or_both(given)
        || has_too_few_or_many_files(given)
        || logs_no_run(given)
        || logs_into_one_file(given)
}
