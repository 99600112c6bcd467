use vs_base::Text;

/// The files of the texts that are wanted besides standard output.
#[derive(Debug, Drop)]
pub struct Texts {
    /// The call log.
    pub calls: Option<Text>,
    /// The waveform.
    pub vcd: Option<Text>,
}
