ghost use Rattle.std.specs.Prelude.{◌≡◌};
ghost use Rattle.std.specs.Option.{option_map_or};
ghost use Rattle.gl_numbers.specs.Errors.{code_of};
ghost use Rattle.gl_model.specs.Errors.{no_errors, raise, smallest, clear_one, flagged};

use gl_numbers::{GlError, NO_ERROR};
use std::marker::Model;

/// The error flags of a page, one for each code (WebGL 1.0 section 5.14.3).
#[derive(Clone, Copy, Debug)]
pub struct ErrorFlags {
    invalid_enum: bool,
    invalid_value: bool,
    invalid_operation: bool,
    out_of_memory: bool,
    invalid_framebuffer_operation: bool,
}

impl Model for ErrorFlags {
    ghost use Rattle.gl_model.specs.Errors.{ErrorSet};

    ghost Value = { ErrorSet };

    ghost view = { λ e. record {
      invalid_enum = e.invalid_enum;
      invalid_value = e.invalid_value;
      invalid_operation = e.invalid_operation;
      out_of_memory = e.out_of_memory;
      invalid_framebuffer_operation = e.invalid_framebuffer_operation;
    } };

    ghost inverse = { λ d. record {
      invalid_enum = d.invalid_enum;
      invalid_value = d.invalid_value;
      invalid_operation = d.invalid_operation;
      out_of_memory = d.out_of_memory;
      invalid_framebuffer_operation = d.invalid_framebuffer_operation;
    } };
}

impl ErrorFlags {
    /// No flag is set.
    pub fn new() -> Self
        ensures { result ≡ no_errors }
    {
        ErrorFlags {
            invalid_enum: false,
            invalid_value: false,
            invalid_operation: false,
            out_of_memory: false,
            invalid_framebuffer_operation: false,
        }
    }

    /// Sets or clears the flag of an error.
    fn flag(&mut self, error: GlError, on: bool)
        ensures { self.new ≡ flagged error on self.old }
    {
        match error {
            GlError::Enum => self.invalid_enum = on,
            GlError::Value => self.invalid_value = on,
            GlError::Operation => self.invalid_operation = on,
            GlError::Memory => self.out_of_memory = on,
            GlError::Framebuffer => self.invalid_framebuffer_operation = on,
        }
    }

    /// Sets the flag of an error.
    pub fn raise(&mut self, error: GlError)
        ensures { self.new ≡ raise error self.old }
    {
        self.flag(error, true);
    }

    /// The error of the smallest code that is set.
    #[inline(always)]
    fn smallest(&self) -> Option<GlError>
        ensures { result ≡ smallest self.now }
    {
        if self.invalid_enum {
            Some(GlError::Enum)
        } else if self.invalid_value {
            Some(GlError::Value)
        } else if self.invalid_operation {
            Some(GlError::Operation)
        } else if self.out_of_memory {
            Some(GlError::Memory)
        } else if self.invalid_framebuffer_operation {
            Some(GlError::Framebuffer)
        } else {
            None
        }
    }

    /// Returns the smallest code that is set, or 0, and clears its flag.
    #[inline(always)]
    pub fn take(&mut self) -> u32
        ensures code { result ≡ option_map_or code_of (smallest self.old) 0 }
        ensures cleared { self.new ≡ clear_one (smallest self.old) self.old }
    {
        match self.smallest() {
            None => NO_ERROR,
            Some(error) => {
                self.flag(error, false);
                error.code()
            }
        }
    }
}
