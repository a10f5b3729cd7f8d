//! The languages of devicetree sources.

/// Which language a source is in.
#[derive(Clone, Copy, Debug, PartialEq, Eq)]
pub enum Language {
    /// the profile: the Devicetree Specification v0.4, chapter 6
    Profile,
    /// dtc's: the profile, and character literals, `/omit-if-no-ref/`, `/incbin/` and `#line` markers
    Dtc,
}
