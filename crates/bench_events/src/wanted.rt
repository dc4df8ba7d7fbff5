//! Which calls are measured.

/// The words after `run`: each, where it is there, has to be the name that stands in its place.
#[derive(Drop)]
pub struct Wanted {
    pub call: Option<String>,
    pub kind: Option<String>,
    pub shape: Option<String>,
    pub ends: Option<String>,
}

fn fits(word: &Option<String>, name: &str) -> bool {
    match word {
        Some(word) => word.as_str() == name,
        None => true,
    }
}

impl Wanted {
    /// Whether a call of these names is measured.
    pub fn asks(&self, call: &str, kind: &str, shape: &str, ends: &str) -> bool {
        fits(&self.call, call)
            && fits(&self.kind, kind)
            && fits(&self.shape, shape)
            && fits(&self.ends, ends)
    }
}
