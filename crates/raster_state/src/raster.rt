ghost use Rattle.std.specs.Prelude.{◌≡◌, OnOk, OnErr};
ghost use Rattle.gl_numbers.specs.Refusals.{Judged};
ghost use Rattle.raster_state.specs.FirstWords.{first_words};
ghost use Rattle.raster_state.specs.Rules.{raster_rules};
ghost use Rattle.raster_state.specs.Effects.{is_stencil_split, raster_effect};

use crate::refusals::refusal;
use crate::words::RasterWords;
use call_records::RasterCall;
use gl_numbers::GlError;
use std::marker::Model;

/// The raster state of a page, seen as its words.
#[derive(Drop)]
pub struct Raster {
    words: RasterWords,
}

impl Model for Raster {
    ghost use Rattle.raster_state.specs.declared.words.RasterWords.{RasterWords};
    ghost use Rattle.raster_state.specs.Codes.{words_code};

    ghost Value = { RasterWords };

    ghost coded = { words_code };

    ghost view = { λ r. r.words };
}

impl Raster {
    /// The raster state at the start (WebGL 1.0 section 5.14.3; OpenGL ES 2.0 section 6.2). Takes no memory.
    pub fn new() -> Raster
        ensures { result ≡ first_words }
    {
        Raster {
            words: RasterWords::first(),
        }
    }

    /// Sets what a call sets. By the first that applies, and then nothing changes: Enum where a word is none that the call
    /// knows; Operation where blendFuncSeparate joins the constant colour and the constant alpha value for colours (WebGL 1.0
    /// section 6.13); Value where viewport or scissor has a negative width or height.
    pub fn apply(&mut self, call: &RasterCall) -> Result<(), GlError>
        ensures judged { Judged (raster_rules call.now) result }
        ensures ok { OnOk result (self.new ≡ raster_effect call.now self.old) }
        ensures err { OnErr result (self.new ≡ self.old) }
    {
        if let Some(error) = refusal(call) {
            return Err(error);
        }
        self.words.set(call);
        Ok(())
    }

    /// The words, as the calls so far have set them.
    pub fn words(&self) -> &RasterWords
        ensures { result.now ≡ self.now }
    {
        &self.words
    }

    /// Whether front and back differ in their stencil reference, value mask or write mask; then no draw is allowed (WebGL 1.0
    /// section 6.10).
    pub fn stencil_split(&self) -> bool
        ensures { result ≡ is_stencil_split self.now }
    {
        let (front, back) = (&self.words.front, &self.words.back);
        front.reference != back.reference
            || front.value_mask != back.value_mask
            || front.write_mask != back.write_mask
    }
}
