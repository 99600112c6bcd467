// From words to settings.
ghost use Rattle.std.specs.Prelude.{◌≡◌, [], map, string_bytes, Some, None, Err, IfOk};
ghost use Rattle.std.specs.Option.{option_map, option_map_or};
ghost use Rattle.vsim_words.specs.Settings.{action_of, settings_in, settings_of, settings_with};
ghost use Rattle.vsim_words.specs.SettingsLaws.{HasFiles};
ghost use Rattle.vsim_words.specs.Views.{given_by, settings_by_options};

use crate::command::parse;
use crate::given::Given;
use crate::refusals::is_refused;
use crate::values::{mode, threads};
use crate::{Action, Options, WordsFault};
use dpi_host::Mode;
use std::alloc::{AllocError, Global};
use vs_base::Text;

fn text_of(alloc: Global, name: &str) -> Result<Text, AllocError>
    ensures { IfOk result (λ t. t ≡ name.now) }
{
    let bytes = Vec::from_slice(alloc, name.as_bytes())?;
    Ok(Text::new(bytes))
}

fn some_text(alloc: Global, name: Option<&str>) -> Result<Option<Text>, AllocError>
    ensures { IfOk result (λ t. t ≡ option_map (λ s. s.now) name.entry) }
{
    match name {
        Some(name) => Ok(Some(text_of(alloc, name)?)),
        None => Ok(None),
    }
}

fn texts(alloc: Global, names: Option<&[&str]>) -> Result<Vec<Text>, AllocError>
    ensures { IfOk result (λ v. v.items ≡ option_map_or (λ s. map (λ t. t.now) s.now) names.entry []) }
{
    let mut texts = Vec::new(alloc);
    let Some(names) = names else {
        return Ok(texts);
    };
    for name in names {
        let text = text_of(alloc, name)?;
        texts.push(text)?;
    }
    Ok(texts)
}

fn chosen(alloc: Global, stim: Option<&str>) -> Result<Action, AllocError>
    ensures { IfOk result (λ a. a ≡ action_of (option_map (λ s. s.now) stim.entry)) }
{
    match stim {
        Some(name) => Ok(Action::Stim(text_of(alloc, name)?)),
        None => Ok(Action::Lint),
    }
}

// The settings by what stands.
fn made(
    alloc: Global,
    given: &Given<'_, '_>,
    threads: u32,
    threads_dpi: Mode,
) -> Result<Options, AllocError>
    ensures { IfOk result (λ o. settings_by_options o ≡ settings_with (given_by given.now) threads threads_dpi) }
{
    let files = texts(alloc, given.files)?;
    let action = chosen(alloc, given.stim)?;
    let top_module = some_text(alloc, given.top_module)?;
    let calls = some_text(alloc, given.calls)?;
    let vcd = some_text(alloc, given.vcd)?;
    Ok(Options {
        files,
        action,
        top_module,
        threads,
        threads_dpi,
        calls,
        vcd,
    })
}

// The settings by what stands, where it is not refused.
fn accepted(alloc: Global, given: &Given<'_, '_>) -> Result<Options, WordsFault>
    ensures ok { IfOk result (λ o. settings_in (given_by given.now) ≡ Some (settings_by_options o)) }
    ensures usage { result ≡ Err WordsFault.Usage → settings_in (given_by given.now) ≡ None }
{
    let Some(threads) = threads(given.threads) else {
        return Err(WordsFault::Usage);
    };
    let Some(mode) = mode(given.threads_dpi) else {
        return Err(WordsFault::Usage);
    };
    if is_refused(given) {
        return Err(WordsFault::Usage);
    }
    match made(alloc, given, threads, mode) {
        Ok(options) => Ok(options),
        Err(_) => Err(WordsFault::NoMemory),
    }
}

/// The settings of the words after the program's name, with the defaults filled in.
///
/// `Usage`: the words have none. `NoMemory`: there was none left.
pub fn settings(alloc: Global, words: &[String]) -> Result<Options, WordsFault>
    ensures ok { IfOk result (λ o. settings_of (map string_bytes words.now) ≡ Some (settings_by_options o)) }
    ensures usage { result ≡ Err WordsFault.Usage → settings_of (map string_bytes words.now) ≡ None }
    ensures files { IfOk result (λ o. HasFiles o.files.items) }
{
    let matches = match parse(alloc, words) {
        Ok(matches) => matches,
        Err(fault) => return Err(fault),
    };
    let given = Given::of(&matches);
    accepted(alloc, &given)
}
