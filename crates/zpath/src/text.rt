//! How the bytes of a name are stored.
//!
//! # Why
//! Most names of settings and locks fit in 16 bytes. So does a sequential node's counter after a
//! stem of six bytes.

ghost use Rattle.std.specs.Prelude.{◌≡◌, ◌++◌, IfOk};

use arrayvec::ArrayString;
use std::alloc::{AllocError, Global};
use zalloc::Memory;

// The most bytes that are stored inline.
const IN_PLACE: usize = 16;

// A short text is stored inline, without an allocation.
#[derive(Debug, Drop)]
pub(crate) enum Text {
    Short(ArrayString<IN_PLACE>),
    Long(String),
}

impl Text {
    ghost use Rattle.zpath.specs.support.Texts.{bytes_of};

    pub(crate) fn from_str(alloc: Global, text: &str) -> Result<Text, Memory>
        ensures { IfOk result (λ made. bytes_of made ≡ text.now) }
    {
        match ArrayString::from(text) {
            Ok(short) => Ok(Text::Short(short)),
            Err(_) => Ok(Text::Long(String::from_str(alloc, text)?)),
        }
    }

    // Returns one text followed by another.
    pub(crate) fn joined(alloc: Global, front: &str, back: &str) -> Result<Text, Memory>
        ensures { IfOk result (λ made. bytes_of made ≡ front.now ++ back.now) }
    {
        if let Ok(mut short) = ArrayString::from(front) {
            if short.try_push_str(back).is_ok() {
                return Ok(Text::Short(short));
            }
        }
        let mut long = String::from_str(alloc, front)?;
        long.push_str(back)?;
        Ok(Text::Long(long))
    }

    pub(crate) fn as_str(&self) -> &str
        ensures { result.now ≡ bytes_of self.now }
    {
        match self {
            Text::Short(short) => short.as_str(),
            Text::Long(long) => long.as_str(),
        }
    }
}

// A long text is copied into an allocation of its own.
impl Clone for Text {
    ghost use Rattle.zpath.specs.support.Texts.{bytes_of};

    ghost is_clone = { λ text copy. bytes_of copy ≡ bytes_of text };

    fn clone(&self) -> Result<Self, AllocError> {
        match self {
            Text::Short(short) => Ok(Text::Short(*short)),
            Text::Long(long) => Ok(Text::Long(long.clone()?)),
        }
    }
}
