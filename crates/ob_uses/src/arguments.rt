use ob_conversions::Checked;

/// An argument of a call, and the place of its first token, counted from 0.
#[derive(Drop)]
pub struct Argument {
    pub first: u32,
    pub is: Checked,
}
