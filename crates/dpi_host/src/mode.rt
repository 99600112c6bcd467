ghost use Rattle.std.specs.Prelude.{◌≡◌};
ghost use Rattle.dpi_host.specs.Modes.{is_deemed};

/// Which imports are taken as safe to call from several threads at a time.
#[derive(Clone, Copy, Debug, PartialEq, Eq)]
pub enum Mode {
    /// Each import.
    All,
    /// Each import that is declared `pure` (IEEE 1800-2017 35.5.2).
    Pure,
    /// No import.
    None,
}

/// Whether an import is taken as safe under a mode, where `declared_pure` tells whether its
/// declaration says `pure`.
pub fn deemed(mode: Mode, declared_pure: bool) -> bool
    ensures { result ≡ is_deemed mode declared_pure }
{
    match mode {
        Mode::All => true,
        Mode::Pure => declared_pure,
        Mode::None => false,
    }
}
