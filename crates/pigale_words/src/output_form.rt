//! The form in which a job writes its figures: text or SVG.

/// How a job that draws writes its figures.
#[derive(Clone, Copy, PartialEq, Eq)]
pub enum Form {
    /// As lines of text.
    Text,
    /// As SVG, and all other lines as comments.
    Svg,
}
