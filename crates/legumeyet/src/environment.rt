//! The tag that is asked for: that of the words, or that of the environment.

use legumeyet_options::tag_of_name;
use std::alloc::AllocError;
use std::env::{self, VarError};

// What a variable has, where it is set and not empty. One that is not UTF-8 counts as not set.
fn variable(rt: &HostRuntime, name: &str) -> Result<Option<String>, AllocError> {
    match env::var(rt, name) {
        Ok(text) => {
            if text.is_empty() {
                Ok(None)
            } else {
                Ok(Some(text))
            }
        }
        Err(VarError::OutOfMemory) => Err(AllocError),
        Err(_) => Ok(None),
    }
}

// The locale's name in the environment, in the order that POSIX gives; `C` where there is none.
fn name_in_environment(rt: &HostRuntime) -> Result<String, AllocError> {
    for name in ["LC_ALL", "LC_NUMERIC", "LANG"] {
        if let Some(text) = variable(rt, name)? {
            return Ok(text);
        }
    }
    String::from_str(rt.alloc(), "C")
}

/// The tag of the words, or of the environment where they have none, or an empty one.
pub fn tag_for(rt: &HostRuntime, said: Option<&str>) -> Result<String, AllocError> {
    let said = said.unwrap_or("");
    if !said.is_empty() {
        return tag_of_name(rt.alloc(), said);
    }
    let name = name_in_environment(rt)?;
    tag_of_name(rt.alloc(), name.as_str())
}
