/// Whether a gear takes part in an initialisation (IEC 62386-102:2014, initialisationState).
#[derive(Clone, Copy, Debug, PartialEq, Eq)]
pub enum InitialisationState {
    /// It ignores the commands of the initialisation, but INITIALISE and TERMINATE.
    Disabled,
    /// It takes part.
    Enabled,
    /// It takes part, but no longer answers COMPARE.
    Withdrawn,
}
